// Where the latest statement rows of accounts stand among rows.
#![tactic(auto)]

ghost use Rattle.placing.specs.Places.{PlacesFollowRows};

// The places lead to the latest statement row of each account, and follow the rows as one more comes.
pub fn places_follow_rows()
    ensures { PlacesFollowRows }
{}
