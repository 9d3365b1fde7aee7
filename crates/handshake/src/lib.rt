// The header of a handshake message's piece, after `Header` of handshake.rs.
#![tactic(auto)]

ghost use Rattle.std.specs.Prelude.{◌≡◌};
ghost use Rattle.handshake.specs.Header.{header_bytes, parse_header};

#[derive(Clone, Copy)]
pub struct Header {
    pub msg_type: u8,
    pub length: u32,
    pub message_seq: u16,
    pub fragment_offset: u32,
    pub fragment_length: u32,
}

impl Header {
    // The 12 bytes. Of the three lengths the low 24 bits are written.
    #[tactic(auto, unfolding(crate::specs::Header::header_bytes))]
    pub fn serialize(self) -> [u8; 12]
        ensures { result ≡ header_bytes self }
    {
        let [_, l0, l1, l2] = self.length.to_be_bytes();
        let [s0, s1] = self.message_seq.to_be_bytes();
        let [_, o0, o1, o2] = self.fragment_offset.to_be_bytes();
        let [_, p0, p1, p2] = self.fragment_length.to_be_bytes();
        [self.msg_type, l0, l1, l2, s0, s1, o0, o1, o2, p0, p1, p2]
    }

    // The header at the front of a slice, if there are bytes enough for one.
    #[tactic(auto, unfolding(crate::specs::Header::parse_header, crate::specs::Header::header_at, base::specs::Choose::choose))]
    pub fn parse_header(input: &[u8]) -> Option<Header>
        ensures { result ≡ parse_header input.now }
    {
        if input.len() < 12 {
            return None;
        }
        Some(Header {
            msg_type: input[0],
            length: base::be::<3>(input, 1) as u32,
            message_seq: base::be::<2>(input, 4) as u16,
            fragment_offset: base::be::<3>(input, 6) as u32,
            fragment_length: base::be::<3>(input, 9) as u32,
        })
    }
}
