//! The service in front of Postfix: notices that are submitted to a mail server, and requests that
//! are carried out.
mod clients;
mod hand_ins;
mod memory_system;
mod own_services;
mod paths;
mod replies;
mod requests;
mod server;
mod sessions;
