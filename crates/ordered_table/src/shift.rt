// Makes room for one more among the first `used` lines, or closes the gap of one.
ghost use Rattle.std.specs.Prelude.{◌≡◌, ◌+◌, ◌<◌, ◌≤◌, ◌++◌, length, take, drop};
ghost use Rattle.std.specs.List.{insert, remove};

// Writes `line` at `at` and moves the used lines from there on by one.
pub(crate) fn insert_at<T: Copy>(lines: &mut [T], at: usize, used: usize, line: T)
    requires order { at ≤ used }
    requires within { used < length lines.old }
    ensures { lines.new ≡ insert (take used lines.old) at line ++ drop (used + 1) lines.old }
{
    lines[used] = line;
    let part = &mut lines[at..used + 1];
    part.rotate_right(1);
}

// Moves the used lines behind `at` up by one; the line at `at` comes last of them.
pub(crate) fn remove_at<T: Copy>(lines: &mut [T], at: usize, used: usize)
    requires order { at < used }
    requires within { used ≤ length lines.old }
    ensures { lines.new ≡ remove (take used lines.old) at ++ (take 1 (drop at (take used lines.old)) ++ drop used lines.old) }
{
    let part = &mut lines[at..used];
    part.rotate_left(1);
}
