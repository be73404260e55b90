//! `Beyond`: what a line tells of an image beyond the tables of its profile.

/// What the line of an image without a fault tells beyond its headers and the tables of its profile: the tables that the profile leaves
/// out, what its file says of itself, and what was found in both. That of a refused image whose headers have no fault tells only what its
/// file says of itself, and what was found in that.
#[derive(Clone, Copy)]
pub struct Beyond {
    /// Whether each function of the exception table is listed.
    pub functions: bool,
    /// Whether each symbol of the image is listed.
    pub symbols: bool,
    /// Whether that is told for which the whole file is added up or hashed: CheckSum as it is to be, and digests.
    pub digests: bool,
}
