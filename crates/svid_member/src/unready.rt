/// Why a member judges no tokens, or should be sent none. If several reasons hold, the first in this order is reported.
#[derive(Clone, Copy, Debug, PartialEq, Eq)]
pub enum Unready {
    /// It has ended.
    Ended,
    /// It has no trust bundle.
    NoBundle,
    /// Its state folder is being read.
    Loading,
    /// The store of the group was not reached yet.
    StoreUnreached,
    /// The store's withdrawals are being read.
    WithdrawalsUnread,
    /// The broker of the group was not reached yet.
    BrokerUnreached,
    /// What the group had is being read.
    GroupUnread,
    /// It is to end soon. It judges the tokens that come.
    Draining,
    /// Its clock went ahead too far at once. It judges no token until that is right.
    Jumped,
    /// In mode `Once`: the state folder takes no acceptance. Each token would be lost.
    KeepsNothing,
    /// In mode `Strict`: the store has not answered for longer than a request waits.
    StoreAway,
    /// In mode `Strict`: the store has lost entries, and may have lost the claim of each token that lives as long as it may.
    Deaf,
}
