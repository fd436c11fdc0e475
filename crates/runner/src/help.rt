// This module starts a program: with `--help` or `-h` among the arguments it prints what the program takes, and without
// them it runs the scripts.
use crate::arguments::{ARGUMENT_BYTES, argument, argument_count};
use crate::program::Program;

// Returns true if an argument asks what the program takes.
fn asks_help(word: &[u8]) -> bool {
    word == b"--help".as_slice() || word == b"-h".as_slice()
}

impl Program<'_> {
    // Returns true if one of the program's arguments asks what it takes.
    fn help_asked(&self) -> bool {
        (1..argument_count(self.rt)).any(|i| {
            let mut word = [0u8; ARGUMENT_BYTES];
            argument(self.rt, i, &mut word).is_some_and(asks_help)
        })
    }

    // Writes a text to standard output.
    fn print(&self, text: &[u8]) {
        let _ = self.rt.write_all(text);
    }

    // Prints how a line is answered, with tables or without.
    fn print_answers(&self) {
        self.print(
            b"For each line it prints the line's number and ok with the number of reports, or no with the refusal;\n",
        );
        self.print(
            b"then a line for each report: cycle and its threads, each with the lock that it awaits.\n",
        );
        if self.tables {
            self.print(
                b"After that comes a line for each table that is not empty: table, its name, its items.\n",
            );
        }
        self.print(
            b"Last comes end with the lines read, the edges stored and the threads that are stuck.\n",
        );
    }

    // Prints the words of a script, with t for a thread, l for a lock, c for a condvar and o for how an attempt came out.
    fn print_words(&self) {
        self.print(b"    ma t l o   attempt on a mutex      mc t l     mutex acquired\n");
        self.print(b"    mr t l     mutex released          md l       mutex gone\n");
        self.print(b"    ra t l o   attempt to read         rc t l     read acquired\n");
        self.print(b"    rt t l o   try to read             rr t l     read released\n");
        self.print(b"    wa t l o   attempt to write        wc t l     write acquired\n");
        self.print(b"    wr t l     write released          rd l       rwlock gone\n");
        self.print(b"    cn c       condvar made            cd c       condvar gone\n");
        self.print(b"    cb t c l   wait on it begins       ce t c l   wait on it ends\n");
        self.print(b"    c1 c       one thread is woken     ca c       all are woken\n\n");
    }

    // Prints what the program takes, with an example.
    fn print_help(&self) {
        self.print(b"usage: ");
        self.print(self.name);
        self.print(b" [SCRIPT ..]\n\n");
        self.print(
            b"Reads each script from the empty state, or standard input where no script is named. A script has an event on\n",
        );
        self.print(
            b"each line: a word and its fields, with a tab between every two. The fields are threads t (0 to 31), locks l (0 to\n",
        );
        self.print(
            b"63) and condvars c (0 to 15); an attempt ends with how it came out, o: took, or - for blocked, or the thread that\n",
        );
        self.print(b"was seen to own the lock.\n\n");
        self.print_words();
        self.print_answers();
        self.print(
            b"\nFor example, two threads that each hold one mutex and want the other's:\n\n",
        );
        self.print(
            b"    printf 'ma\\t1\\t5\\ttook\\nma\\t2\\t6\\ttook\\nma\\t1\\t6\\t-\\nma\\t2\\t5\\t-\\n' | ",
        );
        self.print(self.name);
        self.print(b"\n");
    }
}

// Prints what the program takes if that is asked for, and otherwise runs its scripts.
pub fn run_program(rt: &HostRuntime, program: &[u8], tables: bool) {
    let program = Program {
        rt,
        name: program,
        tables,
    };
    if program.help_asked() {
        program.print_help();
        return;
    }
    program.run_scripts();
}
