//! `ShownImage`: an image that is laid out, as its page shows it.

use crate::trust::TrustFindings;
use pe_layout::Layout;
use pe_reach::ViewFile;
use pe_resource_pages::ShownResources;
use pe_tables::Import;
use pe_view::Fault;

/// An image that is laid out, its file, its delay-loaded imports, its resources, and what was found in its tables beyond the profile.
#[derive(Clone, Copy)]
pub struct ShownImage<'s, 'a> {
    pub layout: &'s Layout<'a>,
    pub file: ViewFile<'a>,
    pub delayed: &'s [Import<'a>],
    pub resources: ShownResources<'s, 'a>,
    /// What was found in the tables and in the resources.
    pub findings: &'s [Fault],
    /// What was found in what the file says of itself.
    pub trust: &'s TrustFindings,
}
