// Receive histories (02, 8): what is told of each record. specs/ has what each line says, and that its reason is the first test that truly failed.
#![tactic(auto)]

// What became of a record: taken, or the first test that failed.
#[derive(Clone, Copy)]
pub enum Reason {
    Short,
    Record,
    Epoch,
    Old,
    Seen,
    Cipher,
    Taken,
}

// What is told of a record. Without a number both numbers are 0.
#[derive(Clone, Copy)]
pub struct Told {
    pub epoch: u64,
    pub number: u64,
    pub reason: Reason,
}
