//! The messages of a pvAccess connection, both ways: which items each has, and how it is read from a
//! payload and written as frames (pvAccess Protocol Specification, "Application Messages").
#![tactic(auto)]

mod command;
mod fault;
mod items;
mod laws;
mod part;
mod reading;
mod replies;
mod replies_writing;
mod requests;
mod requests_writing;
mod subcommand;
mod to_client;
mod to_server;
mod writing;

pub use command::Command;
pub use fault::MessageFault;
pub use laws::{one_message, written_is_read};
pub use part::{Part, PutPart};
pub use reading::{
    read_put_part, read_reply, read_request, read_request_part, read_to_client, read_to_server,
    request_in, request_of,
};
pub use replies_writing::{write_begun, write_get_value, write_monitor_update, write_to_client};
pub use requests_writing::write_to_server;
pub use subcommand::begins;
pub use to_client::ToClient;
pub use to_server::ToServer;
