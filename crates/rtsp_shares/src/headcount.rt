//! How many are inside, of each address and in all.

ghost use Rattle.std.specs.Prelude.{◌≡◌, ◌≢◌, ◌↔◌, ◌-◌, ◌<◌, ℕ, Some, IsTrue, OnOk, OnErr, IfErr, IfOk, IfSome, IfNone};
ghost use Rattle.rtsp_shares.specs.Heads.{inside_of, everybody, opened, of_share, Enters, EntersUnnamed, IsNamed, OneMore, Leaves, IsRefusedFor, IsUnplacedIn};

use crate::table::ShareTable;
use std::alloc::{AllocError, Global};

/// Why somebody isn't let in.
#[derive(Clone, Copy, PartialEq, Eq)]
pub enum Refused {
    /// Its address has its whole share of those that may be inside.
    Share,
    /// As many are inside as may be.
    Full,
    /// No more are let in, ever.
    Over,
}

// Who is inside.
#[derive(Drop)]
pub(crate) enum Inside {
    // So many, whatever their addresses.
    All(u64),
    // Each holds a place of its address.
    Each(ShareTable),
}

/// Who is inside, and how many more are let in.
#[derive(Drop)]
pub struct Headcount {
    // Those of whom an address is known.
    pub(crate) inside: Inside,
    // How many others there are.
    pub(crate) unnamed: u64,
    // How many more are let in over time, where that is limited.
    pub(crate) left: Option<u64>,
}

impl Inside {
    fn count(&self) -> u64
        ensures { result ≡ inside_of self.now }
    {
        match self {
            Inside::All(count) => *count,
            Inside::Each(places) => places.len() as u64,
        }
    }

    // One more of an address, where it has a place.
    fn take(&mut self, address: u32) -> Result<(), Refused>
        ensures more { OnOk result (OneMore address self.old self.new) }
        ensures stays { OnErr result (self.new ≡ self.old) }
        ensures why { IfErr result (IsUnplacedIn address self.old) }
    {
        match self {
            Inside::All(count) => {
                *count = count.checked_add(1).ok_or(Refused::Full)?;
                Ok(())
            }
            Inside::Each(places) => match places.take(address) {
                Ok(()) => Ok(()),
                Err(_) => Err(Refused::Share),
            },
        }
    }
}

impl Headcount {
    /// Nobody is inside, and so many are let in over time, or any number. Where addresses have a share,
    /// at most so many of one are inside, and so many of all.
    pub fn new(
        alloc: Global,
        left: Option<u64>,
        share: Option<usize>,
        most: usize,
    ) -> Result<Headcount, AllocError>
        ensures { IfOk result (λ h. h ≡ opened left share most) }
    {
        let inside = match share {
            Some(share) => Inside::Each(ShareTable::new(alloc, share, most)?),
            None => Inside::All(0),
        };
        Ok(Headcount {
            inside,
            unnamed: 0,
            left,
        })
    }

    /// Where addresses have a share, one may have so many inside from now on. Who is inside stays.
    pub fn set_share(&mut self, share: usize)
        ensures share { self.new.inside ≡ of_share share self.old.inside }
        ensures stays { (self.new.left ≡ self.old.left) × (self.new.unnamed ≡ self.old.unnamed) }
    {
        if let Inside::Each(places) = &mut self.inside {
            places.set_share(share);
        }
    }

    /// How many are inside.
    pub fn count(&self) -> u64
        ensures { result ≡ everybody self.now }
    {
        self.inside.count().saturating_add(self.unnamed)
    }

    /// Whether no more are let in, ever.
    pub fn is_over(&self) -> bool
        ensures { IsTrue result ↔ (self.now.left ≡ Some 0) }
    {
        self.left == Some(0)
    }

    // Why nobody is let in, where so many may be inside.
    fn refusal(&self, most: u64) -> Option<Refused>
        ensures none { IfNone result ((everybody self.now < most) × (self.now.left ≢ Some 0)) }
        ensures why { (address : ℕ) → IfSome result (IsRefusedFor address most self.now) }
    {
        if most <= self.count() {
            return Some(Refused::Full);
        }
        if self.is_over() {
            return Some(Refused::Over);
        }
        None
    }

    /// Lets somebody of an address in, unless so many are inside or more. Nothing else changes.
    pub fn enter(&mut self, address: u32, most: u64) -> Result<(), Refused>
        ensures enters { OnOk result (Enters address most self.old self.new) }
        ensures stays { OnErr result (self.new ≡ self.old) }
        ensures why { IfErr result (IsRefusedFor address most self.old) }
    {
        if let Some(why) = self.refusal(most) {
            return Err(why);
        }
        self.inside.take(address)?;
        if let Some(left) = &mut self.left {
            *left -= 1;
        }
        Ok(())
    }

    /// Lets somebody in whose address isn't known yet, unless so many are inside or more.
    pub fn enter_unnamed(&mut self, most: u64) -> Result<(), Refused>
        ensures enters { OnOk result (EntersUnnamed most self.old self.new) }
        ensures stays { OnErr result (self.new ≡ self.old) }
        ensures why { (address : ℕ) → IfErr result (IsRefusedFor address most self.old) }
    {
        if let Some(why) = self.refusal(most) {
            return Err(why);
        }
        self.unnamed += 1;
        if let Some(left) = &mut self.left {
            *left -= 1;
        }
        Ok(())
    }

    /// The address of somebody inside becomes known, who takes a place of it; not where it has no more.
    pub fn name(&mut self, address: u32) -> Result<(), Refused>
        ensures named { OnOk result (IsNamed address self.old self.new) }
        ensures stays { OnErr result (self.new ≡ self.old) }
        ensures why { IfErr result (IsUnplacedIn address self.old.inside) }
    {
        self.inside.take(address)?;
        self.unnamed = self.unnamed.saturating_sub(1);
        Ok(())
    }

    /// Somebody leaves whose address didn't become known.
    pub fn leave_unnamed(&mut self)
        ensures leaves { self.new.unnamed ≡ self.old.unnamed - 1 }
        ensures stays { (self.new.inside ≡ self.old.inside) × (self.new.left ≡ self.old.left) }
    {
        self.unnamed = self.unnamed.saturating_sub(1);
    }

    /// Somebody of an address leaves, who was let in.
    pub fn leave(&mut self, address: u32)
        ensures leaves { Leaves address self.old.inside self.new.inside }
        ensures stays { (self.new.left ≡ self.old.left) × (self.new.unnamed ≡ self.old.unnamed) }
    {
        match &mut self.inside {
            Inside::All(count) => *count = count.saturating_sub(1),
            Inside::Each(places) => places.give_back(address),
        }
    }
}
