//! One block of the tree.

ghost use Rattle.std.specs.Prelude.{◌≡◌, ◌==◌, ◌&&◌, IfOk};
ghost use Rattle.std.specs.Str.{bytes_eq};
ghost use Rattle.frames_view.specs.Views.{core_of, certificate_of};

use frames_view::{CertificateBuf, CertificateView, CoreBuf, CoreView};
use ids::{Digest, Height};
use std::alloc::{AllocError, Global};

/// A block with what came along, as it stands in a tree or is to stand there.
#[derive(Drop)]
pub struct Node {
    pub(crate) digest: Digest,
    pub(crate) core: CoreBuf,
    pub(crate) certificate: CertificateBuf,
    pub(crate) clear: bool,
}

impl Node {
    /// A node with copies of these parts.
    pub(crate) fn copy(
        alloc: Global,
        digest: Digest,
        core: &CoreView,
        certificate: &CertificateView,
        clear: bool,
    ) -> Result<Node, AllocError>
        ensures { IfOk result (λ n. n
            ≡ record {
              digest = digest;
              core = core_of core.now;
              certificate = certificate_of certificate.now;
              clear = clear;
            }) }
    {
        Ok(Node {
            digest,
            core: CoreBuf::copy(alloc, core)?,
            certificate: CertificateBuf::copy(alloc, certificate)?,
            clear,
        })
    }

    /// The digest of the block.
    pub fn digest(&self) -> Digest
        ensures { result ≡ self.now.digest }
    {
        self.digest
    }

    /// The height of the block.
    pub fn height(&self) -> Height
        ensures { result ≡ self.now.core.height }
    {
        self.core.view().height()
    }

    /// The core of the block.
    pub fn core(&self) -> CoreView<'_>
        ensures { core_of result ≡ self.now.core }
    {
        self.core.view()
    }

    /// The certificate that came along.
    pub fn certificate(&self) -> CertificateView<'_>
        ensures { certificate_of result ≡ self.now.certificate }
    {
        self.certificate.view()
    }

    /// Whether it justifies a block of this height, and came with a certificate for the one of this digest.
    pub(crate) fn justifies(&self, digest: &Digest, height: Height) -> bool
        ensures { result ≡ (self.now.core.justify_height == height)
            && bytes_eq self.now.certificate.digest digest.now }
    {
        self.core.view().justify_height() == height
            && is_same(&Digest(*self.certificate.view().digest()), digest)
    }

    /// Whether the tags of all its commands were right.
    pub fn is_clear(&self) -> bool
        ensures { result ≡ self.now.clear }
    {
        self.clear
    }
}

/// Whether two digests are the same.
pub(crate) fn is_same(a: &Digest, b: &Digest) -> bool
    ensures { result ≡ bytes_eq a.now b.now }
{
    a == b
}
