//! The network of the system behind the traits of `pva_outside`: a TCP listener, the links to clients and servers, a dialer, and
//! UDP datagrams.
//!
//! Each call waits 50 ms at most, but for the dialing. What they send and receive they tell to no contract.
#![tactic(auto)]

mod addresses;
mod bell;
mod pace;
mod patience;
mod refusal_at_accept;
mod tcp_dialer;
mod tcp_link;
mod tcp_listener;
mod udp_datagrams;

pub use bell::Bell;
pub use tcp_dialer::TcpDialer;
pub use tcp_link::TcpLink;
pub use tcp_listener::TcpListener;
pub use udp_datagrams::UdpDatagrams;
