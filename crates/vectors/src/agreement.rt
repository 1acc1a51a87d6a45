// When this code's answer agrees with the one that is expected.
ghost use Rattle.std.specs.Prelude.{◌≡◌};
ghost use Rattle.vectors.specs.Agreement.{Says, Alike};

pub(crate) fn same(theirs: [usize; 24], ours: [usize; 24]) -> bool
    ensures { Says result (Alike theirs ours 24) }
{
    (0..24).all(|k| theirs[k] == ours[k])
}

pub(crate) fn agrees(theirs: &[u8], ours: &[u8]) -> bool
    ensures { Says result (theirs.now ≡ ours.now) }
{
    theirs == ours
}
