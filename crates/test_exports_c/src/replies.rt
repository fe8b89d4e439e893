// Parity, making and classing for C.
// A C name for each, although `port_parity` is but one call: a static library exports its own functions alone.
ghost use Rattle.std.specs.Prelude.{◌≡◌};
ghost use Rattle.mode_s.specs.Parity.{parity_of};
ghost use Rattle.message.specs.Types.{type_numbered};
ghost use Rattle.message.specs.Classing.{class_of, class_number};
ghost use Rattle.test_exports.specs.Replies.{picks_of, made_for, MadeNumbers, reply_with};

#[unsafe(no_mangle)]
pub extern "C" fn port_parity(bytes: &[u8]) -> u32
    ensures { result ≡ parity_of bytes.now }
{
    test_exports::replies::port_parity(bytes)
}

// The field at fault, 0 for none; the reply's kind and its bytes.
#[unsafe(no_mangle)]
pub extern "C" fn port_make(
    n: u8,
    format: u8,
    capability: u8,
    overlay: u8,
    draw: &[u8; 14],
    data: u16,
    spi: u8,
    kind: &mut u8,
    out: &mut [u8; 14],
) -> u64
    ensures { MadeNumbers (made_for (type_numbered n) (picks_of format capability overlay draw.now «data» spi)) result kind.new out.new }
{
    test_exports::replies::port_make(n, format, capability, overlay, draw, data, spi, kind, out)
}

// The number of the class, 255 for none.
#[unsafe(no_mangle)]
pub extern "C" fn port_from_message(kind: u8, message: &[u8; 14]) -> u8
    ensures { result ≡ class_number (class_of (reply_with kind message.now)) }
{
    test_exports::replies::port_from_message(kind, message)
}
