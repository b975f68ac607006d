//! Rows worked by hand, packets with a byte changed, and the door.

mod comset;
mod controller;
mod damage;
mod door;
mod identity;
mod laws;
mod link;
mod reader;
mod responses;
