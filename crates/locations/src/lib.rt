// Where things are to be fetched: URIs, the entries of an authority information access, and CRL distribution points.
#![tactic(auto)]

mod access;
mod points;
mod uris;

pub use access::{Method, http_by, not_http_by, uri_by};
pub use points::{full_name_of, restricted};
pub use uris::{is_http, is_other_uri, is_uri};
