// Writing bytes at a spot of a lent room; no other byte changes.
ghost use Rattle.std.specs.Prelude.{◌≡◌, ◌+◌, ◌*◌, ◌≤◌, length};
ghost use Rattle.grid.specs.Rooms.{written, Written};

// Answers the spot past what it wrote. Byte by byte, and not by `copy_from_slice`: that one keeps a record's bytes on the stack first, and tests the two addresses.
pub fn put_bytes(room: &mut [u8], spot: usize, bytes: &[u8]) -> usize
    requires { spot + length bytes.now ≤ length room.old }
    ensures { Written room.old spot bytes.now result room.new }
{
    for (k, byte) in bytes.iter().enumerate() {
        room[spot + k] = *byte;
    }
    spot + bytes.len()
}

// The n-th record of the room.
pub fn put_record<const N: usize>(room: &mut [u8], n: usize, bytes: &[u8; N])
    requires { n * N + N ≤ length room.old }
    ensures { room.new ≡ written room.old (n * N) bytes.now }
{
    put_bytes(room, n * N, bytes);
}
