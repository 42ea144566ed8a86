//! The texts of the program's help.

pub const VERSION: &str = "0.3.0";

pub const ABOUT: &str =
    "Show how C values are laid out, passed in calls, and called through closures";

pub const LONG_ABOUT: &str =
    "Show how C values are laid out, passed in calls, and called through closures.

layout, place and run read one script from standard input: a JSON text of at
most 1,048,576 bytes with C signatures, functions of these signatures, and a
main function that makes closures of the functions and calls them. cdecl and
cplace read the C declaration of one function, explain and arguments the
registers and the stack of a machine at the entry of a function, and bench reads
nothing. What a command finds goes to standard output. Calls are made on a
modelled machine, in software: no code of the host is called.";

pub const AFTER_HELP: &str = "Targets:
  amd64    System V psABI for AMD64
  aapcs64  procedure call standard for the Arm 64-bit architecture
  riscv    RISC-V psABI, LP64D
  win64    Microsoft x64 calling convention
  apple    Apple ARM64 calling convention

Exit status:
  0  done
  1  the input was refused: standard error has `ffi3: PATH: REASON`, where
     PATH leads to the place in the JSON text (or `ffi3: not JSON`, or
     `ffi3: script too long`, or `ffi3: input too long`); of a declaration,
     `ffi3: at N: REASON`, where N is the offset in bytes (or `ffi3: REASON`);
     of registers and stack, the first argument that they do not hold
  2  the command line was refused, or asked for help or the version
  3  a read failed
  4  a write failed
  5  out of memory
  6  the run stopped: the last line of output says why

Examples:
  ffi3 layout < examples/increment.json
  ffi3 place --target riscv < examples/increment.json
  ffi3 run --target amd64 < examples/increment.json
  ffi3 bench --seed 1 --calls 2
  echo 'int printf(const char *fmt, ...);' | ffi3 cdecl
  ffi3 explain < examples/explain.json";

pub const LAYOUT_ABOUT: &str = "Print the size, alignment and leaves of every type";

pub const LAYOUT_LONG_ABOUT: &str = "Print the size, alignment and leaves of every type.

Reads a script of at most 1,048,576 bytes from standard input. Writes one line
for the result and for each argument of each signature:

  sig 0 ret void
  sig 0 arg 0 struct{sint8,double} size 16 align 8 leaves 0:sint8 8:double

Size and alignment are in bytes. A leaf is a member that is no struct, as
OFFSET:TYPE. The layout is the same on every target. Nothing is run.";

pub const LAYOUT_AFTER_HELP: &str = "Exit status:
  0  done
  1  the script was refused: standard error has `ffi3: PATH: REASON`
  2  the command line was refused, or asked for help or the version
  3  a read failed
  4  a write failed
  5  out of memory

Example:
  ffi3 layout < examples/increment.json";

pub const PLACE_ABOUT: &str = "Print where each argument and result stands in a call";

pub const PLACE_LONG_ABOUT: &str = "Print where each argument and result stands in a call.

Reads a script of at most 1,048,576 bytes from standard input. Writes for each
signature the numbers of its frame, where each argument stands, and where the
result does:

  sig 0 need 80 frame 0 block 16 rax 0
  arg 0 rdi:0+4
  ret rax:0+4

The numbers are bytes of stack: need is all that the call takes, frame the
caller's part of it, with stack arguments and buffers, and block the callee's
copies of its arguments. On amd64, rax counts the vector registers in use.
REGISTER:OFFSET+LENGTH says which bytes of the value that register holds;
stackN stands for the stack N bytes above the first stack argument. Nothing is run.";

pub const PLACE_AFTER_HELP: &str = "Targets:
  amd64    System V psABI for AMD64
  aapcs64  procedure call standard for the Arm 64-bit architecture
  riscv    RISC-V psABI, LP64D
  win64    Microsoft x64 calling convention
  apple    Apple ARM64 calling convention

Exit status:
  0  done
  1  the script was refused: standard error has `ffi3: PATH: REASON`
  2  the command line was refused, or asked for help or the version
  3  a read failed
  4  a write failed
  5  out of memory

Example:
  ffi3 place --target riscv < examples/increment.json";

pub const RUN_ABOUT: &str = "Run the script on a modelled machine";

pub const RUN_LONG_ABOUT: &str = "Run the script on a modelled machine.

Reads a script of at most 1,048,576 bytes from standard input. Does what its
main function says: makes closures, calls them by the calling convention of
the target, and writes the lines that the script prints. Registers, stack and
closure code are modelled in software, for each of the five targets alike: no
code of the host is called.

With --trace, before the target or after it, each call of a closure writes two
lines more as it enters, and two as it returns:

  enter 0x10040 sp 0x7ffefff8 (0x10000,40)
  keep a5a5000000000003 a5a5000000000005 ..
  leave sp 0x7fff0000 142
  keep a5a5000000000003 a5a5000000000005 ..

enter shows the address of the closure, the stack pointer as its function
begins, and the arguments that the function finds; leave shows the stack
pointer after the return, and the result. keep shows the registers that the
function has to preserve, so that of the return equals that of the entry.
Where a function calls, the lines of that call stand between its own.";

pub const RUN_AFTER_HELP: &str = "Targets:
  amd64    System V psABI for AMD64
  aapcs64  procedure call standard for the Arm 64-bit architecture
  riscv    RISC-V psABI, LP64D
  win64    Microsoft x64 calling convention
  apple    Apple ARM64 calling convention

Exit status:
  0  done
  1  the script was refused: standard error has `ffi3: PATH: REASON`
  2  the command line was refused, or asked for help or the version
  3  a read failed
  4  a write failed
  5  out of memory
  6  the run stopped: the last line of output says why

Examples:
  ffi3 run --target amd64 < examples/increment.json
  ffi3 run --target amd64 --trace < examples/callback.json";

pub const TARGET_HELP: &str = "Follow the calling convention of this target";

pub const TRACE_HELP: &str = "Write lines for each call's entry and return too";

pub const BENCH_ABOUT: &str = "Run a made script on amd64, aapcs64 and riscv";

pub const BENCH_LONG_ABOUT: &str = "Run a made script on amd64, aapcs64 and riscv.

Reads no input. A script is made from the seed: four signatures with arguments
of eight types, four functions of which each calls the one before it, and a
main function that makes that many calls and prints the last result. It is run
on each of these targets, and a line is written for each:

  amd64 calls 8 moves 22 need 160 result 543

calls counts the calls of closures, moves the moves of the script, need is the
most bytes of stack that a call of a signature takes, and result is the line
that the script prints. The numbers are decimal digits without a leading zero.";

pub const BENCH_AFTER_HELP: &str = "Exit status:
  0  done
  2  the command line was refused, or asked for help or the version
  4  a write failed
  5  out of memory

Example:
  ffi3 bench --seed 1 --calls 2";

pub const CDECL_ABOUT: &str = "Read a C declaration, and print its signature and canonical text";

pub const CDECL_LONG_ABOUT: &str =
    "Read a C declaration, and print its signature and canonical text.

Reads the declaration of one function from standard input, at most 1,048,576
bytes, as `int printf(const char *fmt, ...);`. Writes two lines:

  sint32(pointer;)
  int32_t printf(void *, ...);

The first is the signature, with a semicolon behind the fixed arguments where
more may follow. The second is the declaration with the names of types that say
their width, and with no names of parameters.

A type is an integer, float, double, a pointer, or a struct that is written out
with its members. int has 32 bits and long 64. Names of types are those that
the language, <stdint.h> and size_t give; there are no other typedefs, no
comments and no lines of the preprocessor. Nothing is run.";

pub const CDECL_AFTER_HELP: &str = "Exit status:
  0  done
  1  the declaration was refused: standard error has `ffi3: at N: REASON`, where
     N is the offset in bytes, or `ffi3: REASON`
  2  the command line was refused, or asked for help or the version
  3  a read failed
  4  a write failed
  5  out of memory

Example:
  echo 'int printf(const char *fmt, ...);' | ffi3 cdecl";

pub const CPLACE_ABOUT: &str = "Read a C declaration, and print where a call has its values";

pub const CPLACE_LONG_ABOUT: &str = "Read a C declaration, and print where a call has its values.

Reads the declaration of one function from standard input, as manual pages have
it: what cdecl reads, and any name before a star, qualifiers as restrict, bool,
ssize_t, _Complex, arrays and functions as parameters, comments, and attributes
that move no value. Behind the dots may stand the types that a call passes
there, `int printf(const char *, ..., int, double)`, which is no C. A char by
value says its sign, which is else the machine's. Writes the two lines of cdecl,
the second with the types behind the dots, and then for each of the five targets
its name and the lines that place writes of the signature, with the names of the
parameters:

  sint32(pointer;)
  int32_t printf(void *, ...);
  target amd64
  sig 0 need 80 frame 0 block 16 rax 0
  arg 0 fmt: rdi:0+8
  ret rax:0+4
  ..

place --help says how these lines are read, and cdecl --help what cdecl reads.
Nothing is run.";

pub const CPLACE_AFTER_HELP: &str = "Targets:
  amd64    System V psABI for AMD64
  aapcs64  procedure call standard for the Arm 64-bit architecture
  riscv    RISC-V psABI, LP64D
  win64    Microsoft x64 calling convention
  apple    Apple ARM64 calling convention

Exit status:
  0  done
  1  the declaration was refused: standard error has `ffi3: at N: REASON`, where
     N is the offset in bytes, or `ffi3: REASON`
  2  the command line was refused, or asked for help or the version
  3  a read failed
  4  a write failed
  5  out of memory

Example:
  echo 'double scale(struct { float x; float y; } p, int by);' | ffi3 cplace";

pub const EXPLAIN_ABOUT: &str =
    "Read registers and stack at an entry, and print the arguments that they hold";

pub const EXPLAIN_LONG_ABOUT: &str =
    "Read registers and stack at an entry, and print the arguments that they hold.

Reads one JSON object of at most 1,048,576 bytes from standard input. It
describes a machine as a function begins, with these keys:

  target    the word of a target
  sig       the function's signature, as in a script of version 2, which may be
            a C declaration
  sp        the stack pointer
  general   32 general registers, by their numbers in instructions
  floating  32 floating registers, by their numbers in instructions
  stack     the bytes of the stack from sp on, as hexadecimal digits

sp and registers are texts of 16 hexadecimal digits, the highest first. Writes a
line for each argument, and one for the address of a hidden result:

  arg 0 -42
  hidden 0x7ffefff0

Each place is judged as a call of this program leaves it: narrow integers are
extended, copies stand at their offsets, and on amd64 rax has the number of
vector registers in use. For the first place that holds something else the
status is 1, and standard error has what it holds and what it would hold:

  ffi3: arg 0: a0 holds 0000000080000000, wants ffffffff80000000

What a compiler's call left is read by arguments, which judges nothing.";

pub const EXPLAIN_AFTER_HELP: &str = "Targets:
  amd64    System V psABI for AMD64
  aapcs64  procedure call standard for the Arm 64-bit architecture
  riscv    RISC-V psABI, LP64D
  win64    Microsoft x64 calling convention
  apple    Apple ARM64 calling convention

Exit status:
  0  done
  1  the input was refused: standard error has `ffi3: PATH: REASON` (or
     `ffi3: not JSON`, or `ffi3: input too long`), or the first place that does
     not hold what it would hold
  2  the command line was refused, or asked for help or the version
  3  a read failed
  4  a write failed
  5  out of memory

Example:
  ffi3 explain < examples/explain.json";

pub const ARGUMENTS_ABOUT: &str =
    "Print the arguments in registers and stack, by the standard alone";

pub const ARGUMENTS_LONG_ABOUT: &str =
    "Print the arguments in registers and stack, by the standard alone.

Reads the object that explain reads, and writes a line for each argument:

  arg 0 -42

Nothing is judged that the calling standard leaves free, so the call may be any
compiler's. An argument that is passed by reference is read where its address
points. Where that is not in the bytes of the stack, the status is 1, and
standard error has

  ffi3: arg 0: 0x7ffeff00 is not in the image

The stack has to reach as far as the highest place of an argument. The address
of a hidden result is not written. explain --help says what the object is.";

pub const ARGUMENTS_AFTER_HELP: &str = "Targets:
  amd64    System V psABI for AMD64
  aapcs64  procedure call standard for the Arm 64-bit architecture
  riscv    RISC-V psABI, LP64D
  win64    Microsoft x64 calling convention
  apple    Apple ARM64 calling convention

Exit status:
  0  done
  1  the input was refused: standard error has `ffi3: PATH: REASON` (or
     `ffi3: not JSON`, or `ffi3: input too long`), or the first address that
     does not point into the image
  2  the command line was refused, or asked for help or the version
  3  a read failed
  4  a write failed
  5  out of memory

Example:
  ffi3 arguments < examples/explain.json";

pub const SEED_HELP: &str = "Make the script of this seed, from 0 to 4294967295";

pub const CALLS_HELP: &str = "Make this many calls in main, from 1 to 1000";

pub const NO_NUMBERS: &str =
    "error: `bench` takes a seed from 0 to 4294967295 and calls from 1 to 1000, in digits without a leading zero

For more information, try '--help'.
";
