//! How long a spelling is.
ghost use Rattle.std.specs.Prelude.{◌≡◌, ◌<◌, ◌+◌, ◌*◌, ◌^◌};
ghost use Rattle.xdr_base.specs.Spelling as spelling;

/// The bytes of a word.
pub(crate) const WORD: usize = 4;

/// How many zero bytes follow an opaque of this length.
pub(crate) fn padding(len: usize) -> usize
    ensures value { result ≡ spelling.padding len }
    ensures bound { result < WORD }
{
    (WORD - len % WORD) % WORD
}

/// How many bytes the spelling of an opaque of this length has.
pub(crate) fn opaque_len(len: usize) -> usize
    requires { len < 2 ^ 32 }
    ensures { result ≡ spelling.opaque_len len }
{
    WORD + len + padding(len)
}
