// A setting of both prescalers.

ghost use Rattle.std.specs.Prelude.{◌<◌};

// 8 PPRE + SPRE: one of 31.
#[derive(Clone, Copy)]
pub struct Setting {
    pub k: u8,
    pub ghost is_one: { k < 31 },
}
