ghost use Rattle.std.specs.Prelude.{IfOk, IfErr};
ghost use Rattle.svid_wire.specs.Streams.{drawn};
ghost use Rattle.svid_lines.specs.Bundles.{AreBundlesRead, IsBundlesFault};

use std::alloc::Global;
use svid_keys::Bundles;
use svid_share::{ToolFault, read_input};
use svid_wire::Source;

/// Reads the bundles from the first input of an engine.
pub fn read_bundles<S: Source>(alloc: Global, source: &mut S) -> Result<Bundles, ToolFault>
    ensures ok { IfOk result (AreBundlesRead (drawn S.left S.stops source.old source.new)) }
    ensures fault { IfErr result (IsBundlesFault (drawn S.left S.stops source.old source.new)) }
{
    let bytes = read_input(alloc, source, 1)?;
    Ok(Bundles::read(alloc, &bytes)?)
}
