ghost use Rattle.std.specs.Prelude.{◌≡◌, ◌<◌};
ghost use Rattle.act_invoke.specs.model_kernel.Outcomes.{finish as finished};
ghost use Rattle.act_invoke.specs.act_alone.Loci.{locus_of};

use act_invoke::Locus;
use base_types::Reply;

/// Ends the call with this reply.
pub(crate) fn reply_with(locus: &mut Locus, reply: Reply) -> Reply
    requires { locus.old.place < 128 }
    ensures locus { locus_of locus.new ≡ finished (locus_of locus.old) reply }
    ensures reply { result ≡ reply }
{
    let _answer = locus.finish(reply);
    reply
}
