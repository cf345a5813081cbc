//! What `--help`, `-h` and `--version` print.

use value_types::Text;

/// What the program does, its commands, and an example.
pub const HELP: &str =
    "spring: a stack of coherent file system layers, as the file services of Spring had them.

usage: spring format STACK
       spring run [--trace] IDL STACK SCRIPT
       spring gen IDL STACK SEED CALLS
       spring dump STACK FILE
       spring disks STACK
       spring check STACK
       spring idl IDL

  format STACK           writes a fresh image of each file on each disk: pages of zeros
  run IDL STACK SCRIPT   mounts the stack, runs the script over it, syncs each file, and writes each
                         client's answers and each file's one history; with --trace also each page
                         message, with the heads of its two frames
  gen IDL STACK SEED CALLS
                         makes a script of so many reads and writes from the number SEED, runs it in
                         the same way, and writes how many were answered and the sum of all bytes
  dump STACK FILE        writes the pages of a file of the stack, as its image has them; over disks
                         in mirrors it mends them first, as a run does. Both name on standard error
                         each disk of a mirror that has no image and is left as it is, that is left
                         out, that was made, or that got a page or a generation:
                         'mirror FILE DISK' and the word bad, out, made or copied
  disks STACK            writes what lies on each disk of each file: the generation of its image and
                         whether a run would take that one, or that it is missing, blank or damaged;
                         no image changes, and none is made
  check STACK            writes the tree of layers that the stack makes, or why it cannot be mounted
  idl IDL                writes the numbered operations of each interface
  --help, -h             writes this
  --version              writes the version

IDL, STACK and SCRIPT are names of host files; FILE is a file of the stack. SEED is below
2147483648, and CALLS at most 1000000. The store of disk D for file F is D.F.img in the current
folder.

The last line is 'status N', and the process ends with N:
  0  all went well                     5  a store could not be taken or given back
  1  a store failed, or a file's       6  a disk holds no image of the file
     history is full                   7  the output could not be written
  2  the words are no command          8  memory ran out
  3  a text is refused
  4  a text could not be read
'image D F 0 magic': the store has no image yet; 'spring format STACK' writes fresh images, over all
that the stores of the stack had. 'bay D F': D.F.img cannot be opened, is of another size, or is in
use by another run.

example: spring format examples/first/first.stack
         spring run examples/spring.idl examples/first/first.stack examples/first/first.script";

/// The program's name and version.
pub const VERSION: &str = "spring 0.1.0";

/// Whether the only word asks for help.
pub fn asks_help(words: &[Text]) -> bool {
    matches!(words, [word] if word.as_str() == "--help" || word.as_str() == "-h")
}

/// Whether the only word asks for the version.
pub fn asks_version(words: &[Text]) -> bool {
    matches!(words, [word] if word.as_str() == "--version")
}
