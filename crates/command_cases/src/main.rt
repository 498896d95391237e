// What the command says of stored texts, compared with `stdout`: answers and messages, reports of runs, comparisons, pages of help.
#![tactic(auto)]

fn main(rt: HostRuntime) {
    tautgaff::tautgaff_main(
        &rt,
        b"check\0small.pl360\0cr.pl360\0tab.pl360\0mark.pl360\0comment.pl360\0number.pl360\0order.pl360\0end.pl360\0depth.pl360\0",
    );
    tautgaff::tautgaff_main(
        &rt,
        b"check\0name.pl360\0twice.pl360\0kind.pl360\0function.pl360\0register.pl360\0base.pl360\0program.pl360\0below.pl360\0value.pl360\0room.pl360\0",
    );
    tautgaff::tautgaff_main(&rt, b"check\0literals.pl360\0long.pl360\0accepted.pl360\0");
    tautgaff::tautgaff_main(&rt, b"translate\0accepted.pl360\0");
    tautgaff::tautgaff_main(&rt, b"run\0accepted.pl360\0--set\0R3=-5\0--show\0R1\0");
    tautgaff::tautgaff_main(&rt, b"run\0accepted.object\0--set\0RA=#FF\0--cc\03\0");
    tautgaff::tautgaff_main(&rt, b"run\0loop.pl360\0--budget\01000\0");
    tautgaff::tautgaff_main(&rt, b"run\0index.pl360\0");
    tautgaff::tautgaff_main(
        &rt,
        b"run\0byte.pl360\0--set\0C=200\0--show\0C\0--show\0D\0",
    );
    tautgaff::tautgaff_main(&rt, b"same\0accepted.pl360\0accepted.object\0");
    tautgaff::tautgaff_main(&rt, b"same\0accepted.pl360\0changed.object\0");
    tautgaff::tautgaff_main(&rt, b"same\0accepted.pl360\0short.object\0");
    tautgaff::tautgaff_main(&rt, b"same\0accepted.pl360\0loop.pl360\0");
    tautgaff::tautgaff_main(&rt, b"help\010\0");
}
