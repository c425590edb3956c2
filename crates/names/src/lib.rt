// A name's fingerprint: names that match have the same one, so that names of different fingerprints need not be compared.
#![tactic(auto)]

ghost use Rattle.std.specs.Prelude.{◌≡◌, ◌<◌};
ghost use Rattle.names.specs.Inner.Fingerprint.{mixed, fingerprint_of};

// One more byte.
fn mix(h: u32, b: u8) -> u32
    requires { h < 65536 }
    ensures value { result ≡ mixed h b }
    ensures small { result < 65536 }
{
    (h * 31 + text::lower(b) as u32) % 65536
}

pub fn fingerprint(name: &[u8]) -> u32
    ensures { result ≡ fingerprint_of name.now }
{
    let mut h = 0;
    for b in name {
        h = mix(h, *b);
    }
    h
}
