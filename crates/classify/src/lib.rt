// Where a reading goes, after `classify_record` of engine.rs, without its ticket and resend cases. specs/Classify.antt says which goes where.
#![tactic(auto)]

#[derive(Clone, Copy)]
pub enum Class {
    // A field out of range (12), a datagram of another length than the one begun (15): nothing has changed.
    Setting,
    Reply,
    // No reading waits to be dealt with.
    Nothing,
    // Dropped: its place is beyond the close; an ACK, alert or handshake record in plaintext, once the peer encrypts.
    Beyond,
    Unprotected,
    // Nothing is done with it: an ACK in plaintext, an alert under two bytes or 90, a close after the first, a change of cipher spec.
    Ignored,
    // A sealed ACK: the records that it names are marked.
    Ack,
    // The first close: its place is remembered.
    Close,
    // Another alert is told, and its datagram ends.
    Alert { description: u8 },
    // Kept for the host.
    Handshake,
    ApplicationData,
    Other,
    Unopened,
}
