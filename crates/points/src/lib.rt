// The fixed points P1 to P14, and those of Q1.11, Q3.2, Q5.7, Q8.10 and Q12.10, as one proved statement.

#![tactic(auto)]

ghost use Rattle.points.specs.Points.{PointsHold};

// Each point gives what the requirements say.
pub fn points_hold()
    ensures { PointsHold }
{}
