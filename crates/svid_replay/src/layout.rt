// The numbers of the layout: how many uses a batch and a room have, and how long the text of a use is.

/// How many uses a batch has at most.
pub const MOST_USES: usize = 65_536;

/// How many uses a [`Room`](crate::Room) takes.
pub const ROOM_USES: usize = 64;

/// How many bytes the text of a use has.
pub const USE_LEN: usize = 65;

pub(crate) const EXP_START: usize = 0;

pub(crate) const KEY_START: usize = 8;

pub(crate) const VALIDATOR_ID_START: usize = 40;

pub(crate) const AT_START: usize = 56;

pub(crate) const KIND_START: usize = 64;
