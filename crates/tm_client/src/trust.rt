//! A reference to an entrusted object, which one client holds.
ghost use Rattle.std.specs.Prelude.{◌≡◌};
ghost use Rattle.tm_client.specs.Listing.{hold_of};

use crate::holds::Hold;
use tm_batch::Name;

/// A reference to an object that its trustee keeps for one client. Only the client's calls make one.
///
/// One that is dropped stays in the client's list.
#[derive(Debug, Drop)]
pub struct Trust {
    pub(crate) trustee: u32,
    pub(crate) name: Name,
    pub(crate) client: u32,
    // Its place in the client's list.
    pub(crate) at: usize,
}

impl Trust {
    /// The number of the trustee that keeps the object.
    pub fn trustee(&self) -> u32
        ensures { result ≡ self.now.trustee }
    {
        self.trustee
    }

    /// The object's number at its trustee.
    pub fn id(&self) -> u64
        ensures { result ≡ self.now.name.id }
    {
        self.name.id
    }

    /// The number of the client that holds it.
    pub fn client(&self) -> u32
        ensures { result ≡ self.now.client }
    {
        self.client
    }

    // What the client's list says of it.
    pub(crate) fn hold(&self) -> Hold
        ensures { result ≡ hold_of self.now.trustee self.now.name }
    {
        Hold {
            trustee: self.trustee,
            id: self.name.id,
        }
    }
}
