//! Laws about members that answer requests: no token is answered 200 twice. They are contracts of functions that
//! compute nothing.
#![tactic(auto)]

pub mod laws;
