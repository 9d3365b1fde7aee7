// The nonce of a record, after `Nonce::xor` of dtls_aead.rs.
#![tactic(auto)]

ghost use Rattle.std.specs.Prelude.{◌≡◌};
ghost use Rattle.dtls_aead.specs.Nonce.{nonce_of};

// The IV with the 8-byte number XORed onto its last eight bytes.
pub fn nonce_xor(iv: [u8; 12], seq: u64) -> [u8; 12]
    ensures { result ≡ nonce_of iv seq }
{
    let mut nonce = iv;
    let number = seq.to_be_bytes();
    for k in 0..8 {
        nonce[4 + k] = iv[4 + k] ^ number[k];
    }
    nonce
}
