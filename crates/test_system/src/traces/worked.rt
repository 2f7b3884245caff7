//! Traces that were worked out by hand.

/// Of `FIVE` on an empty image.
pub(crate) const FIVE_TRACE: &str = "birth a atlas:1,a:1
birth l atlas:2,a:2,l:1
stable atlas
step l l:2 quiet
step l a:3,l:3 reply 0
step l a=3,l:4 read 5
step l l:5 print 5
step l l:6 quiet
";

/// Of `DENIED_OVER_A_MAPPING` on an empty image.
pub(crate) const DENIED_TRACE: &str = "birth c atlas:1,c:1
birth b atlas:2,b:1
birth a atlas:3,a:1
birth l atlas:4,a:2,l:1
stable atlas
step l a=2,l:2 hop
step l b=1,l:3 reply 17
step l l:4 print 17
step l l:5 quiet
";

/// Of `WISHED` on an empty image.
pub(crate) const WISHED_TRACE: &str = "birth a atlas:1,a:1
birth l atlas:2,a:2,l:1
stable atlas
step l l:2 quiet
step l a:3,l:3 reply 0
snap a 3
step l l:4 quiet
";

/// Of `WISHED_BY_TWO` on the image of `WISHED`, in which `a` has no step of `l`.
pub(crate) const WISHED_BY_TWO_TRACE: &str = "birth m atlas:3,a:3,m:1
stable atlas
step m m:2 quiet
step m a:4,m:3 reply 0
snap a 4
snap m 3
step l l:2 quiet
step m m:4 quiet
step l a:5,l:3 reply 0
snap a 5
step l l:4 quiet
";

/// Of `WISHES` on an empty image.
pub(crate) const WISHES_TRACE: &str = "birth a atlas:1,a:1
birth l atlas:2,a:2,l:1
stable atlas
step l l:2 quiet
step l a:3,l:3 reply 0
snap a 3
snap l 3
step l l:4 quiet
";

/// Of `LOADS` on an empty image: a look that only reads leaves its container as it was.
pub(crate) const LOADS_TRACE: &str = "birth a atlas:1,a:1
birth l atlas:2,a:2,l:1
stable atlas
step l a=2,l:2 read 0
step l a=2,l:3 read 0
snap l 3
step l l:4 quiet
";

/// Of `STORES_ON` on an empty image: with the record of the births there are four, and a fifth one is not made.
pub(crate) const STORES_ON_TRACE: &str = "birth a atlas:1,a:1
birth l atlas:2,a:2,l:1
stable atlas
step l a:3,l:2 reply 0
snap a 3
step l a:4,l:3 reply 0
snap a 4
step l a:5,l:4 reply 0
snap a 5
step l a:6,l:5 reply 0
step l a:7,l:6 reply 0
step l l:7 quiet
";

/// Of `STABILISES` on an empty image.
pub(crate) const STABILISES_TRACE: &str = "birth a atlas:1,a:1
birth l atlas:2,a:2,l:1
stable atlas
step l l:2 quiet
step l a:3,l:3 reply 0
step l l:4 reply 0
stable l
step l a:4,l:5 reply 0
step l l:6 quiet
";
