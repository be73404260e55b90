//! A law of the outcomes.

ghost use Rattle.pe_reach.specs.Views.{FollowsLooks};
ghost use Rattle.pe_page.specs.Judged.{IsJudged, IsImageJudged};

use pe_reach::laws::faults_agree;

/// Files that look alike have the same outcome, of `pe_show::show` and of `pe_at::at`.
pub fn outcomes_agree()
    ensures page { FollowsLooks IsJudged }
    ensures place { FollowsLooks IsImageJudged }
{
    faults_agree();
}
