// Where a source parts into a script and a trace.
ghost use Rattle.std.specs.Prelude.{◌≡◌, ◌&&◌, ◌+◌, ◌<◌, ◌≤◌, ◌==◌, IfSome, drop, length, true};
ghost use Rattle.std.specs.List.{before_first, position_or_len};
ghost use Rattle.command_promises.specs.SourceParts.{is_rule as is_a_rule, rule_from};

/// The line between a script and its trace.
const RULE: &[u8] = b"---";

/// Where the first line feed stands, or the end.
fn line_end(text: &[u8]) -> usize
    ensures place { result ≡ position_or_len (λ b. b == 10) text.now }
    ensures within { result ≤ length text.now }
{
    for (place, b) in text.iter().enumerate() {
        if *b == b'\n' {
            return place;
        }
    }
    text.len()
}

/// The bytes before the first line feed, or all.
fn first_line(text: &[u8]) -> &[u8]
    ensures { result.now ≡ before_first (λ b. b == 10) text.now }
{
    &text[..line_end(text)]
}

/// Whether a line begins here that is the one between the parts.
fn is_rule(begins: bool, text: &[u8]) -> bool
    ensures { result ≡ (begins && is_a_rule text.now) }
{
    begins && first_line(text) == RULE
}

/// Where the first line `---` begins.
pub(crate) fn rule_place(bytes: &[u8]) -> Option<usize>
    ensures place { result ≡ rule_from true bytes.now 0 }
    ensures within { IfSome result (λ at. at < length bytes.now) }
{
    let mut begins = true;
    for (at, byte) in bytes.iter().enumerate() {
        if is_rule(begins, &bytes[at..]) {
            return Some(at);
        }
        begins = *byte == b'\n';
    }
    None
}

/// What stands behind the line that begins here.
pub(crate) fn behind_rule(bytes: &[u8], at: usize) -> &[u8]
    requires { at < length bytes.now }
    ensures { result.now ≡ drop (at + 4) bytes.now }
{
    if bytes.len() - at > RULE.len() {
        &bytes[at + RULE.len() + 1..]
    } else {
        &[]
    }
}
