//! Macros by which a reader is written as its line of the grammar.

/// What stands at a place of the tokens, read step by step: a [`Parsed`](crate::Parsed).
///
/// `read!(alloc, pieces, at; STEP ..)`, or `read!(pieces, at; STEP ..)` where nothing is allocated. A step is
/// - a key word as `"owner"`, or a sign as `,` `;` `.` `=` or `( STEP .. )`;
/// - `name: .literal`, a value that a method of [`Pieces`](crate::Pieces) reads, `q: qualified_name`, one that a function
///   reads, and `flag: truth[pieces, at]`, one that a function reads out of these arguments;
/// - `..options`, tokens that a function passes over;
/// - `if "null" { STEP .. }`, what is read where the key word or the sign stands, in place of all that follows, and
///   `if at "null" { STEP .. }`, the same with the key word or the sign itself still to be read.
///
/// The last is `=> VALUE`, the value that was read, or `-> reader` or `-> .literal`, which reads all the rest.
#[macro_export]
macro_rules! read {
    // `@[how it ends] [alloc,] pieces at {what was read so far} STEP ..`
    (@$end:tt $a:tt $p:ident $at:ident {$($so_far:tt)*} => $value:expr) => {{
        $($so_far)* $crate::read!(@$end Ok(($value, $at)))
    }};
    (@$end:tt [$($a:tt)*] $p:ident $at:ident {$($so_far:tt)*} -> . $method:ident) => {{
        $($so_far)* $crate::read!(@$end $p.$method($($a)* $at))
    }};
    (@$end:tt [$($a:tt)*] $p:ident $at:ident {$($so_far:tt)*} -> $reader:ident) => {{
        $($so_far)* $crate::read!(@$end $reader($($a)* $p, $at))
    }};
    (@$end:tt $a:tt $p:ident $at:ident {$($so_far:tt)*} -> $reader:ident[$($x:tt)*]) => {{
        $($so_far)* $crate::read!(@$end $reader($($x)*))
    }};
    (@$end:tt $a:tt $p:ident $at:ident {$($so_far:tt)*} if at $token:tt { $($then:tt)+ } $($rest:tt)+) => {
        $crate::read!(@$end $a $p $at {
            $($so_far)* if $crate::read!(@is $p $at $token) { $crate::read!(@[return] $a $p $at {} $($then)+) }
        } $($rest)+)
    };
    (@$end:tt $a:tt $p:ident $at:ident {$($so_far:tt)*} if $token:tt { $($then:tt)+ } $($rest:tt)+) => {
        $crate::read!(@$end $a $p $at {
            $($so_far)* if let Some($at) = $crate::read!(@after $p $at $token) { $crate::read!(@[return] $a $p $at {} $($then)+) }
        } $($rest)+)
    };
    (@$end:tt [$($a:tt)*] $p:ident $at:ident {$($so_far:tt)*} $v:tt : . $method:ident $($rest:tt)+) => {
        $crate::read!(@$end [$($a)*] $p $at { $($so_far)* let ($v, $at) = $p.$method($($a)* $at)?; } $($rest)+)
    };
    (@$end:tt $a:tt $p:ident $at:ident {$($so_far:tt)*} $v:tt : $reader:ident[$($x:tt)*] $($rest:tt)+) => {
        $crate::read!(@$end $a $p $at { $($so_far)* let ($v, $at) = $reader($($x)*)?; } $($rest)+)
    };
    (@$end:tt [$($a:tt)*] $p:ident $at:ident {$($so_far:tt)*} $v:tt : $reader:ident $($rest:tt)+) => {
        $crate::read!(@$end [$($a)*] $p $at { $($so_far)* let ($v, $at) = $reader($($a)* $p, $at)?; } $($rest)+)
    };
    (@$end:tt [$($a:tt)*] $p:ident $at:ident {$($so_far:tt)*} .. $reader:ident $($rest:tt)+) => {
        $crate::read!(@$end [$($a)*] $p $at { $($so_far)* let $at = $reader($($a)* $p, $at)?; } $($rest)+)
    };
    (@$end:tt $a:tt $p:ident $at:ident {$($so_far:tt)*} ($($inner:tt)+) $($rest:tt)+) => {
        $crate::read!(@$end $a $p $at { $($so_far)* let $at = $p.sign($at, b'(')?; } $($inner)+ @close $($rest)+)
    };
    (@$end:tt $a:tt $p:ident $at:ident {$($so_far:tt)*} @close $($rest:tt)+) => {
        $crate::read!(@$end $a $p $at { $($so_far)* let $at = $p.sign($at, b')')?; } $($rest)+)
    };
    (@$end:tt $a:tt $p:ident $at:ident {$($so_far:tt)*} $key:literal $($rest:tt)+) => {
        $crate::read!(@$end $a $p $at { $($so_far)* let $at = $p.word($at, $key)?; } $($rest)+)
    };
    (@$end:tt $a:tt $p:ident $at:ident {$($so_far:tt)*} $sign:tt $($rest:tt)+) => {
        $crate::read!(@$end $a $p $at { $($so_far)* let $at = $p.sign($at, $crate::read!(@byte $sign))?; } $($rest)+)
    };
    (@is $p:ident $at:ident $key:literal) => { $p.is_word($at, $key) };
    (@is $p:ident $at:ident $sign:tt) => { $p.is_sign($at, $crate::read!(@byte $sign)) };
    (@after $p:ident $at:ident $key:literal) => { $p.after_word($at, $key) };
    (@after $p:ident $at:ident $sign:tt) => { $p.after_sign($at, $crate::read!(@byte $sign)) };
    (@byte ,) => { b',' };
    (@byte ;) => { b';' };
    (@byte .) => { b'.' };
    (@byte =) => { b'=' };
    (@byte ()) => { b'(' };
    (@[] $result:expr) => { $result };
    (@[return] $result:expr) => { return $result };
    ($alloc:ident, $pieces:ident, $at:ident; $($steps:tt)+) => {
        $crate::read!(@[] [$alloc,] $pieces $at {} $($steps)+)
    };
    ($pieces:ident, $at:ident; $($steps:tt)+) => { $crate::read!(@[] [] $pieces $at {} $($steps)+) };
}

/// The value beside the first of these key words that stands at a place, or None: all that its function returns.
#[macro_export]
macro_rules! by_word {
    ($pieces:ident, $at:ident; $($key:literal => $value:expr),+) => {{
        $(if $pieces.is_word($at, $key) { return Some($value); })+
        None
    }};
}
