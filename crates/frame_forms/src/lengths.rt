// Frames of which only the length counts.
ghost use Rattle.std.specs.Prelude.{◌≡◌};
ghost use Rattle.frame_forms.specs.Lengths.{is_uuid, is_identity, is_value};

pub const VALUE_ROOM: usize = 256;

pub fn is_uuid(s: &[u8]) -> bool
    ensures { result ≡ is_uuid s.now }
{
    matches!(s.len(), 0 | 16)
}

pub fn is_identity(s: &[u8]) -> bool
    ensures { result ≡ is_identity s.now }
{
    matches!(s.len(), 1..=255)
}

pub fn is_value(s: &[u8]) -> bool
    ensures { result ≡ is_value s.now }
{
    s.len() <= VALUE_ROOM
}
