//! What of a view is checked.

use frames_view::{CertificateView, CoreView};
use ids::{Kind, PartyId};

/// What a view claims, and its receiver checks, as it stands in the frame. A part that the view
/// doesn't have is none.
#[derive(Drop)]
pub struct Claims<'a> {
    pub(crate) own: Option<OwnTag<'a>>,
    pub(crate) certificate: Option<CertificateView<'a>>,
    pub(crate) core: Option<CoreView<'a>>,
}

/// The frame's own tag for the receiver, and what it speaks of.
#[derive(Clone, Copy)]
pub struct OwnTag<'a> {
    pub(crate) kind: Kind,
    pub(crate) sender: PartyId,
    pub(crate) content: &'a [u8],
    pub(crate) tag: &'a [u8; 32],
}
