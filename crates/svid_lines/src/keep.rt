ghost use Rattle.std.specs.Prelude.{◌≡◌, ℕ, List, Option, OnOk, OnErr, IfErr};
ghost use Rattle.svid_wire.specs.Faults.{CountsFault};
ghost use Rattle.svid_wire.specs.RecordText.{record_text};
ghost use Rattle.svid_wire.specs.Streams.{TookAll, TookPart, taken};
ghost use Rattle.svid_share.specs.declared.tool_fault.ToolFault.TheVariants.{Write};

use svid_replay::{Record, UseStore};
use svid_share::ToolFault;
use svid_wire::{Sink, Stopped};

/// A sink whose text replaces an older one, which stays until [`keep`](Keep::keep).
pub trait Keep: Sink {
    // The text that is kept, where it gives it.
    ghost kept: { Self → Option (List ℕ) };

    /// Takes the text of a record, as [`put_record`](svid_share::put_record) writes it. The kept text stays.
    ///
    /// `Write` where the sink stopped: then it took a part.
    fn take_record<T: UseStore>(&mut self, state: &Record<T>) -> Result<(), ToolFault>
        ensures ok { OnOk result (TookAll (taken Self.told Self.stops self.old self.new) (record_text state.now)) }
        ensures fault { IfErr result (λ e. e ≡ Write) }
        ensures part { OnErr result (TookPart (taken Self.told Self.stops self.old self.new) (record_text state.now)) }
        ensures stays { kept self.new ≡ kept self.old };

    /// Keeps everything that it took. This replaces the text that was kept before.
    ///
    /// `Stopped` leaves the text that was kept before, and adds one to the count of faults, held at 2^64-1.
    fn keep(&mut self) -> Result<(), Stopped>
        ensures keeps { OnOk result (kept self.new ≡ Self.told self.new) }
        ensures stays { OnErr result (kept self.new ≡ kept self.old) }
        ensures same { Self.told self.new ≡ Self.told self.old }
        ensures faults { CountsFault (Self.stops self.old) (Self.stops self.new) result };
}
