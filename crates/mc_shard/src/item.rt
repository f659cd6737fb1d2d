//! An item as a class keeps it.
ghost use Rattle.std.specs.Prelude.{◌≡◌, ◌++◌, OnOk, OnErr};
ghost use Rattle.mc_model.specs.Rows.{with_due, with_value};
ghost use Rattle.mc_shard.specs.Kept.{appended, prepended};
ghost use Rattle.mc_shard.specs.Stays.{stay_of, flags_of, due_of_stay};

use mc_item::{Bytes, Expiry};
use std::alloc::AllocError;
use std::marker::Model;

/// An item in 48 bytes, 8 fewer than its four parts take side by side. A contract sees the parts.
#[derive(Drop)]
pub(crate) struct KeptItem {
    value: Bytes,
    cas: u64,
    stay: Stay,
}

// How long an item stays. The flags stand in the gap before the moment.
#[derive(Clone, Copy)]
enum Stay {
    Always { flags: u32 },
    Until { flags: u32, moment: u64 },
}

impl Model for KeptItem {
    ghost use Rattle.mc_model.specs.declared.item.Item.{Item};
    ghost use Rattle.mc_model.specs.contracts.item.Item as item;
    ghost use Rattle.mc_shard.specs.Stays.{flags_of, due_of_stay};

    ghost Value = { Item };

    ghost coded = { item.the_row.coded };

    ghost view = { λ a. record { value = a.value; flags = flags_of a.stay; due = due_of_stay a.stay; cas = a.cas } };
}

impl Stay {
    fn of(flags: u32, due: Expiry) -> Stay
        ensures { result ≡ stay_of flags due }
    {
        match due {
            Expiry::Never => Stay::Always { flags },
            Expiry::At(moment) => Stay::Until { flags, moment },
        }
    }

    fn flags(self) -> u32
        ensures { result ≡ flags_of self }
    {
        match self {
            Stay::Always { flags } | Stay::Until { flags, .. } => flags,
        }
    }

    fn due(self) -> Expiry
        ensures { result ≡ due_of_stay self }
    {
        match self {
            Stay::Always { .. } => Expiry::Never,
            Stay::Until { moment, .. } => Expiry::At(moment),
        }
    }
}

impl KeptItem {
    pub(crate) fn new(value: Bytes, flags: u32, due: Expiry, cas: u64) -> KeptItem
        ensures { result ≡ record { value = value; flags = flags; due = due; cas = cas } }
    {
        KeptItem {
            value,
            cas,
            stay: Stay::of(flags, due),
        }
    }

    /// The bytes stored.
    pub(crate) fn value(&self) -> &Bytes
        ensures { result.now ≡ self.now.value }
    {
        &self.value
    }

    pub(crate) fn flags(&self) -> u32
        ensures { result ≡ self.now.flags }
    {
        self.stay.flags()
    }

    /// When the item goes.
    pub(crate) fn due(&self) -> Expiry
        ensures { result ≡ self.now.due }
    {
        self.stay.due()
    }

    pub(crate) fn cas(&self) -> u64
        ensures { result ≡ self.now.cas }
    {
        self.cas
    }

    /// Lets the item go at another moment.
    pub(crate) fn set_due(&mut self, due: Expiry)
        ensures { self.new ≡ with_due due self.old }
    {
        self.stay = Stay::of(self.stay.flags(), due);
    }

    /// Gives the item another value.
    pub(crate) fn set_value(&mut self, value: Bytes, cas: u64)
        ensures { self.new ≡ with_value value cas self.old }
    {
        self.value = value;
        self.cas = cas;
    }

    /// Puts bytes behind the value, which grows in place where it can. An `Err` leaves all as it
    /// was.
    pub(crate) fn append(&mut self, more: &[u8], cas: u64) -> Result<(), AllocError>
        ensures put { OnOk result (self.new ≡ appended more.now cas self.old) }
        ensures err { OnErr result (self.new ≡ self.old) }
    {
        self.value.extend(more)?;
        self.cas = cas;
        Ok(())
    }

    /// Puts bytes in front of the value, which grows in place where it can. An `Err` leaves all as
    /// it was.
    pub(crate) fn prepend(&mut self, more: &[u8], cas: u64) -> Result<(), AllocError>
        ensures put { OnOk result (self.new ≡ prepended more.now cas self.old) }
        ensures err { OnErr result (self.new ≡ self.old) }
    {
        self.value.prepend(more)?;
        self.cas = cas;
        Ok(())
    }
}
