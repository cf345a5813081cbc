//! A client with its answers.

use script_text::Said;
use spr_client::Client;

/// A client of a script, and its answers so far.
#[derive(Debug, Drop)]
pub struct Worker {
    /// The client.
    pub client: Client,
    /// The answers to its lines so far.
    pub said: Vec<Said>,
}
