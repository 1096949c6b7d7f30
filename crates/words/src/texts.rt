// A script's text: at most SCRIPT_BYTES bytes, which every later stage may count on.
ghost use Rattle.std.specs.Prelude.{◌≤◌, vec_len};
ghost use Rattle.fault.specs.Limits.{script_bytes};

#[derive(Drop)]
pub struct Text {
    pub(crate) bytes: Vec<u8>,
    ghost small: { vec_len bytes ≤ script_bytes },
}
