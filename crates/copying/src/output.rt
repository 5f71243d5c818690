// Bytes copied to the end of the output.
ghost use Rattle.std.specs.Prelude.{◌≤◌, length};
ghost use Rattle.copying.specs.Copying.{Appended};

// Copies bytes to the front of the part of the output that is not built yet.
pub fn append(part: &mut [u8], bytes: &[u8])
    requires { length bytes.now ≤ length part.old }
    ensures { Appended part.old bytes.now part.new }
{
    // No `copy_from_slice`: it calls memmove, and the library for C is to need nothing but memcpy and memset.
    for (j, byte) in bytes.iter().enumerate() {
        part[j] = *byte;
    }
}
