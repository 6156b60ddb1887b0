//! Where the names of files lead, and whether two lead to one file.

ghost use Rattle.std.specs.Prelude.{◌≡◌};
ghost use Rattle.omf_host.specs.Spots.{is_one_file, is_same_node};

use std::alloc::AllocError;
use std::fs;
use std::fs::{FileType, Metadata};
use std::os::unix::fs::{FileTypeExt, MetadataExt};

/// The most symbolic links that are followed from a name, as the system does.
const MOST_LINKS: usize = 40;

/// The device and the inode of what is there.
#[derive(Clone, Copy, Debug)]
pub(crate) struct Node {
    device: u64,
    inode: u64,
}

impl Node {
    /// Those that the system gives for a file.
    pub(crate) fn of(found: &Metadata) -> Node {
        Node {
            device: found.dev(),
            inode: found.ino(),
        }
    }

    /// Whether they are the same.
    pub(crate) fn is(self, other: Node) -> bool
        ensures { result ≡ is_same_node self other }
    {
        self.device == other.device && self.inode == other.inode
    }
}

/// Where the name of a file leads, through symbolic links.
#[derive(Drop)]
pub(crate) enum Spot {
    /// To what is there.
    There(Node),
    /// To a file that is not there: its folder, and its name in it.
    Missing(Node, String),
    /// To the standard output, which is no file.
    Output,
    /// To a device, a pipe or a socket, of which writing destroys nothing; or into a folder that is not there.
    Elsewhere,
}

impl Spot {
    /// Whether both are one file.
    pub(crate) fn is_one_file(&self, other: &Spot) -> bool
        ensures { result ≡ is_one_file self.now other.now }
    {
        match self {
            Spot::There(one) => match other {
                Spot::There(two) => one.is(*two),
                _ => false,
            },
            Spot::Missing(one, name) => match other {
                Spot::Missing(two, other_name) => one.is(*two)
                    && name.as_str() == other_name.as_str(),
                _ => false,
            },
            Spot::Output => match other {
                Spot::Output => true,
                _ => false,
            },
            Spot::Elsewhere => false,
        }
    }
}

/// The name at the end of the symbolic links that begin at a name: the name itself if it is no link.
pub(crate) fn followed(rt: &HostRuntime, name: &str) -> Result<String, AllocError> {
    let mut path = String::from_str(rt.alloc(), name)?;
    for _ in 0..MOST_LINKS {
        let Ok(link) = fs::read_link(rt, path.as_str()) else {
            return Ok(path);
        };
        let link = link.into_string();
        path = match path.as_str().rsplit_once('/') {
            Some((folder, _)) if !link.starts_with('/') => {
                format!(in rt.alloc(); "{folder}/{link}")?
            }
            _ => link,
        };
    }
    Ok(path)
}

/// The folder and the name in it of a path.
fn parts_of(path: &str) -> (&str, &str) {
    match path.rsplit_once('/') {
        Some(("", name)) => ("/", name),
        Some((folder, name)) => (folder, name),
        None => (".", path),
    }
}

/// Where the name of a file leads that is not there.
fn missing_spot(rt: &HostRuntime, name: &str) -> Result<Spot, AllocError> {
    let path = followed(rt, name)?;
    let (folder, name) = parts_of(path.as_str());
    match fs::metadata(rt, folder) {
        Ok(found) => Ok(Spot::Missing(Node::of(&found), String::from_str(rt.alloc(), name)?)),
        Err(_) => Ok(Spot::Elsewhere),
    }
}

/// Whether writing destroys nothing of what is there: a device without blocks, a pipe or a socket.
fn is_stream(kind: &FileType) -> bool {
    kind.is_char_device() || kind.is_fifo() || kind.is_socket()
}

/// Where the name of a file leads.
fn spot_of(rt: &HostRuntime, name: &str) -> Result<Spot, AllocError> {
    match fs::metadata(rt, name) {
        Ok(found) if is_stream(&found.file_type()) => Ok(Spot::Elsewhere),
        Ok(found) => Ok(Spot::There(Node::of(&found))),
        Err(_) => missing_spot(rt, name),
    }
}

/// Where the name of an input leads; `-` is the standard input.
pub(crate) fn input_spot(rt: &HostRuntime, name: &str) -> Result<Spot, AllocError> {
    if name == "-" {
        spot_of(rt, "/dev/stdin")
    } else {
        spot_of(rt, name)
    }
}

/// Where the name of an output leads; `-` is the standard output.
pub(crate) fn output_spot(rt: &HostRuntime, name: &str) -> Result<Spot, AllocError> {
    if name != "-" {
        return spot_of(rt, name);
    }
    match spot_of(rt, "/dev/stdout")? {
        Spot::There(node) => Ok(Spot::There(node)),
        Spot::Missing(..) | Spot::Output | Spot::Elsewhere => Ok(Spot::Output),
    }
}
