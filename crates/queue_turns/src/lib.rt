// A queue of messages sent in turn with an account: what it answers and leaves, message by message, and that this is each sent in its order, up to the
// first that is refused. Definitions and laws only.
#![tactic(auto)]

use power_account::Account;
use refusals::Refusal;

// What sending a queue answers: the refusal of the message where it stops, or of the queue itself, the number of messages sent, and the account.
#[derive(Clone, Copy)]
pub struct Queued {
    pub answer: Result<(), Refusal>,
    pub sent: usize,
    pub account: Account,
}
