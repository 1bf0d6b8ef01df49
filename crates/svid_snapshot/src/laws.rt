//! Laws of records and state folders together. Each is the contract of a function with an empty body.

ghost use Rattle.svid_snapshot.specs.Snapshots.{MessagesBearNoPosition, PiecesAreAllowed};

/// A snapshot may be made from the pieces of a record, as `Validator::parts_after` makes them one after the other. A use that the
/// record had when the journal that grows began, and that is live when the last piece is made, is in one of them, if the first
/// piece was made from a record that still had it. Other payloads may come before the pieces, such as the position of a member in
/// its log. This is the premise of `svid_journal::laws::histories_keep` for the mark that ends a snapshot. So it holds for a
/// program that first asks for a piece once the snapshot is due.
pub fn pieces_make_snapshots()
    ensures { PiecesAreAllowed }
{}

/// A payload that consists of messages begins with no position of a member: `svid_journal::LogPosition::split` returns none.
pub fn messages_bear_no_position()
    ensures { MessagesBearNoPosition }
{}
