//! Bits of the uplink.

ghost use Rattle.std.specs.Prelude.{◌≡◌, ◌+◌, ◌≤◌};

use rtsp_record::Whole;

/// The bits per second of the uplink, of which some are held.
#[derive(Drop)]
pub struct RatePool {
    uplink: u64,
    held: u64,
    ghost within: { held ≤ uplink },
}

impl RatePool {
    /// The uplink of a whole, all of it free.
    pub fn open(whole: &Whole) -> Self
        ensures uplink { result.uplink ≡ whole.now.uplink }
        ensures held { result.held ≡ 0 }
    {
        RatePool {
            uplink: whole.uplink,
            held: 0,
        }
    }

    /// How many bits per second are held.
    pub fn held(&self) -> u64
        ensures value { result ≡ self.now.held }
        ensures within { result ≤ self.now.uplink }
    {
        self.held
    }

    /// How many bits per second are free.
    pub fn free_count(&self) -> u64
        ensures { result + self.now.held ≡ self.now.uplink }
    {
        self.uplink - self.held
    }

    /// Takes bits per second that are free.
    pub fn take(&mut self, bits: u64)
        requires { self.old.held + bits ≤ self.old.uplink }
        ensures held { self.new.held ≡ self.old.held + bits }
        ensures uplink { self.new.uplink ≡ self.old.uplink }
    {
        self.held += bits;
    }

    /// Gives back bits per second that are held.
    pub fn give(&mut self, bits: u64)
        requires { bits ≤ self.old.held }
        ensures held { self.new.held + bits ≡ self.old.held }
        ensures uplink { self.new.uplink ≡ self.old.uplink }
    {
        self.held -= bits;
    }
}
