//! What some lines and texts mean, row by row, and how large a ring's store is. The functions do nothing: their
//! contracts are the rows and laws.

ghost use Rattle.std.specs.Prelude.{◌≡◌, [], codes, false, true};
ghost use Rattle.loop_record.specs.Geometry.{disk_size, frame_bytes};
ghost use Rattle.loop_station_words.specs.Orders.{order_said};
ghost use Rattle.loop_station_words.specs.Rings.{file_size};
ghost use Rattle.loop_station_words.specs.Rules.{rule_said};
ghost use Rattle.loop_station_words.specs.Shapes.{shape_geometry};
ghost use Rattle.loop_station_words.specs.Times.{time_said};
ghost use Rattle.loop_station_words.specs.declared.choices.WhenFull.{WhenFull};
ghost use Rattle.loop_station_words.specs.declared.order.Order.{Order};

use crate::ring::RingSize;
use crate::shape::FrameShape;

/// Each order has a line.
#[tactic(auto, unfolding(crate::proofs::OnLiterals::orders_on_literals))]
pub fn each_order_has_a_line()
    ensures keep { order_said (codes "keep") ≡ Some (Order.Keep None None None None) }
    ensures seconds { order_said (codes "keep 60") ≡ Some (Order.Keep None (Some 60) None None) }
    ensures camera { order_said (codes "keep left 60 7")
        ≡ Some (Order.Keep (Some (codes "left")) (Some 60) None (Some 7)) }
    ensures after { order_said (codes "keep left 30 +10 7")
        ≡ Some (Order.Keep (Some (codes "left")) (Some 30) (Some 10) (Some 7)) }
    ensures after_alone { order_said (codes "keep +10") ≡ Some (Order.Keep None None (Some 10) None) }
    ensures release { order_said (codes "release left 3") ≡ Some (Order.Release (codes "left") 3 None) }
    ensures first { order_said (codes "release left 3 90") ≡ Some (Order.Release (codes "left") 3 (Some 90)) }
    ensures cancel { order_said (codes "cancel left 3") ≡ Some (Order.Cancel (codes "left") 3) }
    ensures list { order_said (codes "list") ≡ Some Order.List }
    ensures save { order_said (codes "save left 3 my clip.y4m")
        ≡ Some (Order.Save (codes "left") 3 (codes "my clip.y4m") false) }
    ensures replace { order_said (codes "save! left 3 a") ≡ Some (Order.Save (codes "left") 3 (codes "a") true) }
    ensures event { order_said (codes "save left #7 my clip.y4m")
        ≡ Some (Order.SaveEvent (codes "left") 7 (codes "my clip.y4m") false) }
    ensures replace_event { order_said (codes "save! left #7 a")
        ≡ Some (Order.SaveEvent (codes "left") 7 (codes "a") true) }
    ensures reload { order_said (codes "reload") ≡ Some Order.Reload }
    ensures help { order_said (codes "help") ≡ Some Order.Help }
    ensures status { order_said (codes "status") ≡ Some Order.Status }
    ensures stop { order_said (codes "stop") ≡ Some Order.Stop }
{}

/// These lines aren't orders.
#[tactic(auto, unfolding(crate::proofs::OnLiterals::orders_on_literals))]
pub fn other_lines_have_no_order()
    ensures empty { order_said [] ≡ None }
    ensures word { order_said (codes "keeps") ≡ None }
    ensures many { order_said (codes "keep left 60 7 8") ≡ None }
    ensures tag { order_said (codes "keep 60 left") ≡ None }
    ensures large { order_said (codes "keep 4294967296") ≡ None }
    ensures no_after { order_said (codes "keep 60 +") ≡ None }
    ensures two_after { order_said (codes "keep +1 +2") ≡ None }
    ensures other_order { order_said (codes "keep 60 7 +10") ≡ None }
    ensures no_name { order_said (codes "release 7 3") ≡ None }
    ensures no_clip { order_said (codes "release left 3 90 7") ≡ None }
    ensures no_save { order_said (codes "cancel left") ≡ None }
    ensures out { order_said (codes "save left 3 ") ≡ None }
    ensures no_tag { order_said (codes "save left # a") ≡ None }
    ensures no_digits { order_said (codes "save left #x a") ≡ None }
    ensures large_tag { order_said (codes "save left #18446744073709551616 a") ≡ None }
    ensures event_out { order_said (codes "save left #7 ") ≡ None }
    ensures space { order_said (codes "list ") ≡ None }
    ensures reload { order_said (codes "reload left") ≡ None }
{}

/// Each rule for a camera whose blocks are all locked has a text.
#[tactic(auto, unfolding(crate::proofs::OnLiterals::orders_on_literals))]
pub fn each_rule_has_a_text()
    ensures stop { rule_said (codes "stop") ≡ Some WhenFull.Stop }
    ensures saved { rule_said (codes "release saved") ≡ Some WhenFull.ReleaseSaved }
    ensures oldest { rule_said (codes "release oldest") ≡ Some (WhenFull.ReleaseOldest None) }
    ensures tag { rule_said (codes "release oldest tag 9") ≡ Some (WhenFull.ReleaseOldest (Some 9)) }
    ensures no_tag { rule_said (codes "release oldest tag") ≡ None }
    ensures no_number { rule_said (codes "release oldest tag x") ≡ None }
    ensures saved_tag { rule_said (codes "release saved tag 9") ≡ None }
    ensures word { rule_said (codes "release") ≡ None }
{}

/// These texts are these times, in microseconds since 1970.
#[tactic(auto, unfolding(crate::proofs::OnLiterals::times_on_literals))]
pub fn texts_are_times()
    ensures first { time_said (codes "1970-01-01T00:00:00Z") ≡ Some 0 }
    ensures leap { time_said (codes "2000-02-29T23:59:59.999999Z") ≡ Some 951868799999999 }
    ensures east { time_said (codes "2026-11-22T16:38:00.5+01:00") ≡ Some 1795361880500000 }
    ensures west { time_said (codes "1969-12-31T19:00:00-05:00") ≡ None }
    ensures no_leap { time_said (codes "2100-02-29T00:00:00Z") ≡ None }
{}

/// The size that a ring is chosen by is the size of the store's disk.
pub fn file_size_is_disk_size(shape: &FrameShape, ring: RingSize)
    ensures { file_size (frame_bytes (shape_geometry shape.now ring)) ring
        ≡ disk_size (shape_geometry shape.now ring) }
{}
