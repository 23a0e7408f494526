//! The place to which a command writes, which depends on what is at the given name.

ghost use Rattle.std.specs.Prelude.{◌≡◌, ◌↔◌, Some, IfOk};
ghost use Rattle.std.specs.Fs.{IsFile, file_type};
ghost use Rattle.std.specs.Path.{path_buf_bytes, path_with_file_name};
ghost use Rattle.mp4_remux_program.specs.Destination.{destination_of, kind_text, obstacle_text, partial_name};

use std::alloc::{AllocError, Global};
use std::fmt;
use std::fs::Metadata;
use std::os::unix::fs::{FileTypeExt, MetadataExt};
use std::path::{Path, PathBuf};

/// The kind of a node of a file system.
#[derive(Clone, Copy, Debug, PartialEq, Eq)]
pub enum NodeKind {
    /// A regular file.
    File,
    /// A directory.
    Folder,
    /// A FIFO, also called a named pipe.
    Fifo,
    /// A socket.
    Socket,
    /// A character device.
    CharDevice,
    /// A block device.
    BlockDevice,
    /// None of these.
    Other,
}

/// The identity of a node. Hard links of one file have the same identity.
#[derive(Clone, Copy, Debug, PartialEq, Eq)]
pub struct NodeId {
    /// The device of the node.
    pub device: u64,
    /// The inode of the node on its device.
    pub inode: u64,
}

/// A node of a file system.
#[derive(Clone, Copy, Debug, PartialEq, Eq)]
pub struct Node {
    /// Its kind.
    pub kind: NodeKind,
    /// Its identity.
    pub id: NodeId,
}

/// The file that is written.
#[derive(Clone, Copy, Debug, PartialEq, Eq)]
pub enum Destination {
    /// The file with the given name, which may be new.
    Named,
    /// The file to which the link with the given name leads.
    Linked,
}

/// The reason for writing nothing.
#[derive(Clone, Copy, Debug, PartialEq, Eq)]
pub enum Obstacle {
    /// The name leads to the file that is read.
    Source,
    /// The name is a symbolic link that leads nowhere.
    Dangling,
    /// The name leads to a node that is not a regular file.
    NotFile(NodeKind),
}

/// Returns the kind of the node with this metadata.
fn kind_of(metadata: &Metadata) -> NodeKind
    ensures { (result ≡ NodeKind.File) ↔ IsFile (file_type metadata.now) }
{
    if metadata.is_file() {
        return NodeKind::File;
    }
    let found = metadata.file_type();
    if found.is_dir() {
        NodeKind::Folder
    } else if found.is_fifo() {
        NodeKind::Fifo
    } else if found.is_socket() {
        NodeKind::Socket
    } else if found.is_char_device() {
        NodeKind::CharDevice
    } else if found.is_block_device() {
        NodeKind::BlockDevice
    } else {
        NodeKind::Other
    }
}

impl Node {
    /// Returns the node with this metadata.
    pub fn new(metadata: &Metadata) -> Node
        ensures { (result.kind ≡ NodeKind.File) ↔ IsFile (file_type metadata.now) }
    {
        Node {
            kind: kind_of(metadata),
            id: NodeId {
                device: metadata.dev(),
                inode: metadata.ino(),
            },
        }
    }
}

/// Returns where to write, if the file `source` is read and the given name leads to the node `found`. `is_link` says
/// whether the name itself is a symbolic link.
pub fn choose_destination(
    source: NodeId,
    is_link: bool,
    found: Option<Node>,
) -> Result<Destination, Obstacle>
    ensures { result ≡ destination_of source is_link found }
{
    let Some(node) = found else {
        return if is_link {
            Err(Obstacle::Dangling)
        } else {
            Ok(Destination::Named)
        };
    };
    match node.kind {
        NodeKind::File => {
            if node.id.device == source.device && node.id.inode == source.inode {
                Err(Obstacle::Source)
            } else if is_link {
                Ok(Destination::Linked)
            } else {
                Ok(Destination::Named)
            }
        }
        kind => Err(Obstacle::NotFile(kind)),
    }
}

/// Returns the path of the unfinished file with the number `number`, in the folder of `target`.
pub fn partial_beside(alloc: Global, target: &str, number: u32) -> Result<PathBuf, AllocError>
    ensures { IfOk result (λ path. path_buf_bytes path ≡ path_with_file_name target.now (partial_name number)) }
{
    let name = format!(in alloc; ".mp4remux-{number}.partial")?;
    Path::new(target).with_file_name(alloc, name.as_str())
}

impl fmt::Display for NodeKind {
    ghost output = { λ kind. Some (kind_text kind) };

    fn fmt<W: fmt::Write>(&self, f: &mut fmt::Formatter<W>) -> fmt::Result {
        match self {
            NodeKind::File => f.write_str("regular file"),
            NodeKind::Folder => f.write_str("directory"),
            NodeKind::Fifo => f.write_str("FIFO"),
            NodeKind::Socket => f.write_str("socket"),
            NodeKind::CharDevice => f.write_str("character device"),
            NodeKind::BlockDevice => f.write_str("block device"),
            NodeKind::Other => f.write_str("special file"),
        }
    }
}

impl fmt::Display for Obstacle {
    ghost output = { λ obstacle. Some (obstacle_text obstacle) };

    fn fmt<W: fmt::Write>(&self, f: &mut fmt::Formatter<W>) -> fmt::Result {
        match self {
            Obstacle::Source => f.write_str(
                "this is the file that is read; OUT must be another file",
            ),
            Obstacle::Dangling => f.write_str(
                "this is a symbolic link to a file that does not exist; OUT must be a regular file or a new name",
            ),
            Obstacle::NotFile(kind) => {
                write!(
                    f,
                    "this is a {kind}; OUT must be a regular file or a new name"
                )
            }
        }
    }
}
