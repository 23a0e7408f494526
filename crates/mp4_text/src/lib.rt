//! For callers that read and write brands, handlers, metadata values, event messages and data references: the boxes of
//! strings, data and references.
#![tactic(auto)]

mod data;
mod dinf;
mod dref;
mod emsg;
mod ftyp;
mod hdlr;
pub mod laws;
mod terminated;
mod url;

pub use data::DataBox;
pub use dinf::DinfBox;
pub use dref::DrefBox;
pub use emsg::EmsgBox;
pub use ftyp::FtypBox;
pub use hdlr::HdlrBox;
pub use url::UrlBox;
