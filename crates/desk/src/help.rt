// The calls, for an operator. Each line begins with `#`: where a transcript is read again, it is a comment.
use std::io;

pub(crate) fn say_help(rt: &impl Print) -> io::Result<()> {
    rt.print(
        "# fresh                        0\n\
        # open SLOT FLOOR              N\n\
        # deliver SLOT HEX             N, or: 12 HEAD SITE\n\
        # report SLOT LENGTH           N, or: 0 COUNT H/S/B=C H/S/B=C ..\n\
        # close SLOT                   N\n\
        # figures                      N, or: 0 FREE PROMISED\n\
        # feed SLOT LENGTH HEX         N TAKEN, or: 12 HEAD SITE TAKEN\n\
        # end SLOT                     N\n\
        # write ORDER AT LENGTH HEX    N OUT, or: 0 BYTES OUT\n\
        # read ORDER AT LENGTH HEX     N OUT, or: 0 BYTES OUT\n\
        # help                         these lines\n",
    )
}
