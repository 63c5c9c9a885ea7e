//! Names from paths.
ghost use Rattle.std.specs.Prelude.{◌≡◌, ◌+◌, ◌-◌, ◌<◌, ◌==◌, not, length, slice_index};
ghost use Rattle.std.specs.List.{suffix_len};
ghost use Rattle.gq_infer.specs.Words.{base_name, without_extension};

/// The name of a path's last part, without its last extension.
pub(crate) fn stem(path: &str) -> &str
    ensures { result.now ≡ without_extension (base_name path.now) }
{
    without_extension(base_name(path))
}

fn base_name(path: &str) -> &str
    ensures { result.now ≡ base_name path.now }
{
    &path[after_last(path.as_bytes(), b'/')..]
}

/// A name of nothing but an extension stays as it is.
fn without_extension(name: &str) -> &str
    ensures { result.now ≡ without_extension name.now }
{
    let end = after_last(name.as_bytes(), b'.');
    if end <= 1 { name } else { &name[..end - 1] }
}

/// The place after the last of these bytes, or 0.
fn after_last(bytes: &[u8], sought: u8) -> usize
    ensures place { result + suffix_len (λ b. not (b == sought)) bytes.now ≡ length bytes.now }
    ensures after { 0 < result → slice_index bytes.now (result - 1) ≡ sought }
{
    let mut end = bytes.len();
    while end > 0 && bytes[end - 1] != sought {
        end -= 1;
    }
    end
}
