//! What docs/FAULTS.md says of each fault and trap; `gate/explanations write` makes this file of it.

ghost use Rattle.std.specs.Prelude.{◌≡◌, ◌/◌, map};
ghost use Rattle.cli_explanations.specs.Numbered.{titled};
ghost use Rattle.cli_explanations.specs.Titles.{faults_0, faults_10, faults_20, faults_30, faults_40, faults_50, faults_60, faults_80, faults_90, traps_0, traps_10, faults_near, traps_near};

use crate::Explanation;

/// The faults from 0 to 9, by rising numbers.
static FAULTS_0: [Explanation; 4] = [
    Explanation {
        number: 1,
        title: b"a byte begins no token",
        text: b"fault 1: a byte begins no token\n\nOutside of comments and strings a text has the bytes of the language's tokens and blanks (C99 6.4): no @, #, $,\n', ., ?, :, \\, no backtick, no control byte, and nothing beyond ASCII. Take it out.\n\n    JNIEXPORT void JNICALL Java_A_f(JNIEnv *env, jclass cls)\n    {\n        put_jint(1 ? 2 : 3);\n        return;\n    }\n\nfault 1 line 3\n",
    },
    Explanation {
        number: 2,
        title: b"a comment has no end",
        text: b"fault 2: a comment has no end\n\n/* goes on to the next */ (C99 6.4.9). The line is that of the /*. Close it.\n\n    JNIEXPORT void JNICALL Java_A_f(JNIEnv *env, jclass cls)\n    {\n        return; /* done\n    }\n\nfault 2 line 3\n",
    },
    Explanation {
        number: 3,
        title: b"a bad number",
        text: b"fault 3: a bad number\n\nNumbers are 0, decimal without leading zeros, or 0x with digits, each with an optional u, and in the range of\ntheir type (C99 6.4.4.1). 012 would be octal, 1U and 1L aren't in the language. Write the number out.\n\n    JNIEXPORT void JNICALL Java_A_f(JNIEnv *env, jclass cls)\n    {\n        put_jint(2147483648);\n        return;\n    }\n\nfault 3 line 3\n",
    },
    Explanation {
        number: 4,
        title: b"a bad string",
        text: b"fault 4: a bad string\n\nA string ends on its line and has the bytes 32 to 126 without \" and \\ (C99 6.4.5; there are no escapes). Close it,\nor leave the byte out.\n\n    JNIEXPORT void JNICALL Java_A_f(JNIEnv *env, jclass cls)\n    {\n        jclass c = (*env)->FindClass(env, \"java/lang/String);\n        return;\n    }\n\nfault 4 line 3\n",
    },
];

/// These, as a slice.
#[tactic(auto, unfolding(crate::specs::Titles::faults_0))]
fn faults_0() -> &'static [Explanation]
    ensures { map titled result.now ≡ faults_0 }
{
    &FAULTS_0
}

/// The faults from 10 to 19, by rising numbers.
static FAULTS_10: [Explanation; 3] = [
    Explanation {
        number: 11,
        title: b"unexpected token",
        text: b"fault 11: unexpected token\n\nThe text isn't of the grammar (docs/LANGUAGE.md). The line is that of the first token from which it can't go on, so a\n; that is missing is told at the token after it.\n\n    JNIEXPORT void JNICALL Java_A_f(JNIEnv *env, jclass cls)\n    {\n        put_jint(1)\n        return;\n    }\n\nfault 11 line 4\n",
    },
    Explanation {
        number: 12,
        title: b"nested too deeply",
        text: b"fault 12: nested too deeply\n\nBlocks, operators, casts, parentheses and indexes count one each, up to 32. Name a part of the expression by a variable\nof its own.\n\n    JNIEXPORT void JNICALL Java_A_f(JNIEnv *env, jclass cls)\n    {\n        put_jint((jint)\n            ~~~~~~~~~~~~~~~~~~~~~~~~~~~~~~~~1u);\n        return;\n    }\n\nfault 12 line 4\n",
    },
    Explanation {
        number: 13,
        title: b"too many functions, statics or names",
        text: b"fault 13: too many functions, statics or names\n\nAt most 256 functions, 256 statics, and 256 names that a function declares, its parameters from the class on among them.\nThe line is that of the first that is too many. Split the text or the function.\n\n    static jobject s1 = NULL;\n\nLine 1 for each number from 1 to 257: fault 13 line 257\n",
    },
];

/// These, as a slice.
#[tactic(auto, unfolding(crate::specs::Titles::faults_10))]
fn faults_10() -> &'static [Explanation]
    ensures { map titled result.now ≡ faults_10 }
{
    &FAULTS_10
}

/// The faults from 20 to 29, by rising numbers.
static FAULTS_20: [Explanation; 8] = [
    Explanation {
        number: 21,
        title: b"undeclared name",
        text: b"fault 21: undeclared name\n\nA variable is known after its declaration, to the end of its block (C99 6.2.1). A function's name is that of a native\nmethod (JNI Specification, chapter 2, \"Resolving Native Method Names\"). Declare the variable first, or mend the name.\n\n    JNIEXPORT void JNICALL Java_A_f(JNIEnv *env, jclass cls)\n    {\n        put_jint(n);\n        return;\n    }\n\nfault 21 line 3\n",
    },
    Explanation {
        number: 22,
        title: b"a name is declared twice",
        text: b"fault 22: a name is declared twice\n\nA name stands for one thing in a function, also in blocks that lie side by side; so do the functions and statics of a\ntext. Choose another.\n\n    JNIEXPORT void JNICALL Java_A_f(JNIEnv *env, jclass cls, jint n)\n    {\n        jint n = 1;\n        put_jint(n);\n        return;\n    }\n\nfault 22 line 3\n",
    },
    Explanation {
        number: 23,
        title: b"type mismatch",
        text: b"fault 23: type mismatch\n\nAn operator's operands, a variable and its value, an argument and its parameter, a return and its function fit each\nother as docs/LANGUAGE.md says; nothing is converted by itself. Put a cast, or take a variable of the right type.\n\n    JNIEXPORT void JNICALL Java_A_f(JNIEnv *env, jclass cls, jint n)\n    {\n        put_jint(n + 1);\n        return;\n    }\n\nfault 23 line 3\n\nA weak global reference isn't tested against NULL, and is given to NewLocalRef, NewGlobalRef, IsSameObject and\nDeleteWeakGlobalRef alone (JNI Specification, chapter 2, \"Weak Global References\"), since its object may be gone\nbefore the next statement. Make a local reference of it, and test and use that.\n\n    static jweak cache = NULL;\n    \n    JNIEXPORT void JNICALL Java_A_f(JNIEnv *env, jclass cls)\n    {\n        if (cache != NULL) {\n            put_jint(1);\n        }\n        return;\n    }\n\nfault 23 line 5\n",
    },
    Explanation {
        number: 24,
        title: b"a function of the JNI isn't known",
        text: b"fault 24: a function of the JNI isn't known\n\nREADME has the list of those that are (JNI Specification, chapter 4). Mend the name, or do without the function.\n\n    JNIEXPORT void JNICALL Java_A_f(JNIEnv *env, jclass cls)\n    {\n        jint version = (*env)->GetVersion(env);\n        return;\n    }\n\nfault 24 line 3\n",
    },
    Explanation {
        number: 25,
        title: b"a wrong number of arguments",
        text: b"fault 25: a wrong number of arguments\n\nGive as many as the function has parameters after env (JNI Specification, chapter 4). CallStaticVoidMethod,\nCallStaticIntMethod and CallStaticObjectMethod take the class, the method, and up to 16 more, which the method is\ngiven.\n\n    JNIEXPORT void JNICALL Java_A_f(JNIEnv *env, jclass cls)\n    {\n        jint length = (*env)->GetArrayLength(env);\n        return;\n    }\n\nfault 25 line 3\n\n    JNIEXPORT void JNICALL Java_A_f(JNIEnv *env, jclass cls)\n    {\n        (*env)->CallStaticVoidMethod(env, cls);\n        return;\n    }\n\nfault 25 line 3\n",
    },
    Explanation {
        number: 26,
        title: b"a reference would be copied",
        text: b"fault 26: a reference would be copied\n\nEach variable has a local reference of its own, so that deleting one leaves the other (JNI Specification, chapter 2,\n\"Global and Local References\"). Call NewLocalRef.\n\n    JNIEXPORT void JNICALL Java_A_f(JNIEnv *env, jclass cls, jobject object)\n    {\n        jobject other = object;\n        return;\n    }\n\nfault 26 line 3\n",
    },
    Explanation {
        number: 27,
        title: b"not a release mode",
        text: b"fault 27: not a release mode\n\nThe mode of a release is 0, JNI_COMMIT or JNI_ABORT (JNI Specification, chapter 4, \"Array Operations\"). Write one\nof these.\n\n    JNIEXPORT void JNICALL Java_A_f(JNIEnv *env, jclass cls, jintArray array)\n    {\n        jint *numbers = NULL;\n        (*env)->ReleaseIntArrayElements(env, array, numbers, 3);\n        return;\n    }\n\nfault 27 line 4\n",
    },
    Explanation {
        number: 28,
        title: b"a string's characters are written to",
        text: b"fault 28: a string's characters are written to\n\nWhat GetStringChars gives isn't to be changed (JNI Specification, chapter 4, \"String Operations\"). Copy them to an\narray by GetStringRegion.\n\n    JNIEXPORT void JNICALL Java_A_f(JNIEnv *env, jclass cls)\n    {\n        const jchar *chars = NULL;\n        chars[0] = 65;\n        return;\n    }\n\nfault 28 line 4\n",
    },
];

/// These, as a slice.
#[tactic(auto, unfolding(crate::specs::Titles::faults_20))]
fn faults_20() -> &'static [Explanation]
    ensures { map titled result.now ≡ faults_20 }
{
    &FAULTS_20
}

/// The faults from 30 to 39, by rising numbers.
static FAULTS_30: [Explanation; 9] = [
    Explanation {
        number: 31,
        title: b"a call or a print while a buffer is critical",
        text: b"fault 31: a call or a print while a buffer is critical\n\nFrom a critical Get to its release only critical Gets and releases are called, and nothing is printed, since a virtual\nmachine may keep its collector waiting all the while (JNI Specification, chapter 4, \"GetPrimitiveArrayCritical\"). Keep\nwhat the buffer has in a variable, and call or print after the release.\n\n    JNIEXPORT void JNICALL Java_A_f(JNIEnv *env, jclass cls, jintArray array)\n    {\n        jint *numbers = (*env)->GetPrimitiveArrayCritical(env, array, NULL);\n        if (numbers == NULL) {\n            return;\n        }\n        put_jint(numbers[0]);\n        (*env)->ReleasePrimitiveArrayCritical(env, array, numbers, JNI_ABORT);\n        return;\n    }\n\nfault 31 line 7\n",
    },
    Explanation {
        number: 32,
        title: b"a return while a buffer is acquired",
        text: b"fault 32: a return while a buffer is acquired\n\nWhat a Get gave is released on each path (JNI Specification, chapter 4, \"Array Operations\" and \"String Operations\").\nRelease it before the return.\n\n    JNIEXPORT void JNICALL Java_A_f(JNIEnv *env, jclass cls, jintArray array)\n    {\n        jint *numbers = (*env)->GetIntArrayElements(env, array, NULL);\n        if (numbers == NULL) {\n            return;\n        }\n        numbers[0] = 1;\n        return;\n    }\n\nfault 32 line 8\n",
    },
    Explanation {
        number: 33,
        title: b"a buffer is overwritten or leaves scope unreleased",
        text: b"fault 33: a buffer is overwritten or leaves scope unreleased\n\nA Get goes into a variable that holds no buffer, and the buffers that a block declares have to be released before it\nends (JNI Specification, chapter 4, \"Array Operations\"). Release it first.\n\n    JNIEXPORT void JNICALL Java_A_f(JNIEnv *env, jclass cls, jintArray array)\n    {\n        jint *numbers = (*env)->GetIntArrayElements(env, array, NULL);\n        numbers = (*env)->GetIntArrayElements(env, array, NULL);\n        if (numbers == NULL) {\n            return;\n        }\n        (*env)->ReleaseIntArrayElements(env, array, numbers, JNI_ABORT);\n        return;\n    }\n\nfault 33 line 4\n",
    },
    Explanation {
        number: 34,
        title: b"a buffer is used before it is tested",
        text: b"fault 34: a buffer is used before it is tested\n\nA Get answers NULL where it has no memory, so its buffer is compared with NULL before it is read, written or released\n(JNI Specification, chapter 4, Get<PrimitiveType>ArrayElements). Put the comparison after the Get.\n\n    JNIEXPORT void JNICALL Java_A_f(JNIEnv *env, jclass cls, jintArray array)\n    {\n        jint *numbers = (*env)->GetIntArrayElements(env, array, NULL);\n        (*env)->ReleaseIntArrayElements(env, array, numbers, JNI_ABORT);\n        return;\n    }\n\nfault 34 line 4\n",
    },
    Explanation {
        number: 35,
        title: b"a buffer is used that isn't acquired",
        text: b"fault 35: a buffer is used that isn't acquired\n\nA buffer is tested, read, written and released between its Get and its release (JNI Specification, chapter 4, \"Array\nOperations\").\n\n    JNIEXPORT void JNICALL Java_A_f(JNIEnv *env, jclass cls)\n    {\n        jint *numbers = NULL;\n        put_jint(numbers[0]);\n        return;\n    }\n\nfault 35 line 4\n",
    },
    Explanation {
        number: 36,
        title: b"a return inside a frame",
        text: b"fault 36: a return inside a frame\n\nA function returns in the frame that it was called in (JNI Specification, chapter 4, \"PushLocalFrame\"). Call\nPopLocalFrame first.\n\n    JNIEXPORT void JNICALL Java_A_f(JNIEnv *env, jclass cls)\n    {\n        if ((*env)->PushLocalFrame(env, 1) == 0) {\n            return;\n        }\n        return;\n    }\n\nfault 36 line 4\n",
    },
    Explanation {
        number: 37,
        title: b"the first frame is popped",
        text: b"fault 37: the first frame is popped\n\nPopLocalFrame ends a frame that the function itself has begun (JNI Specification, chapter 4, \"PopLocalFrame\"). Take it\nout.\n\n    JNIEXPORT void JNICALL Java_A_f(JNIEnv *env, jclass cls)\n    {\n        (*env)->PopLocalFrame(env, NULL);\n        return;\n    }\n\nfault 37 line 3\n",
    },
    Explanation {
        number: 38,
        title: b"a deleted reference is used",
        text: b"fault 38: a deleted reference is used\n\nA deleted reference, and one of a frame that was popped, refers to nothing (JNI Specification, chapter 4,\n\"DeleteLocalRef\" and \"PopLocalFrame\"). Delete it after its last use.\n\n    JNIEXPORT void JNICALL Java_A_f(JNIEnv *env, jclass cls, jobject object)\n    {\n        (*env)->DeleteLocalRef(env, object);\n        jclass found = (*env)->GetObjectClass(env, object);\n        return;\n    }\n\nfault 38 line 4\n",
    },
    Explanation {
        number: 39,
        title: b"the array of an acquired buffer is changed",
        text: b"fault 39: the array of an acquired buffer is changed\n\nThe release wants the array, so its variable is a local one and isn't set, deleted or popped before (JNI Specification,\nchapter 4, Release<PrimitiveType>ArrayElements). Release the buffer first.\n\n    JNIEXPORT void JNICALL Java_A_f(JNIEnv *env, jclass cls, jintArray array)\n    {\n        jint *numbers = (*env)->GetIntArrayElements(env, array, NULL);\n        if (numbers == NULL) {\n            return;\n        }\n        array = NULL;\n        (*env)->ReleaseIntArrayElements(env, array, numbers, 0);\n        return;\n    }\n\nfault 39 line 7\n",
    },
];

/// These, as a slice.
#[tactic(auto, unfolding(crate::specs::Titles::faults_30))]
fn faults_30() -> &'static [Explanation]
    ensures { map titled result.now ≡ faults_30 }
{
    &FAULTS_30
}

/// The faults from 40 to 49, by rising numbers.
static FAULTS_40: [Explanation; 3] = [
    Explanation {
        number: 40,
        title: b"branches leave different states",
        text: b"fault 40: branches leave different states\n\nWhere the branches of an if join, each variable has to be in the same state on both, and the same number of frames\npushed; at the end of a while's body, the same as before the loop. What may be done after it can't depend on the path\nthat was taken. The line is that of the if or while. Do the same on the other path.\n\n    JNIEXPORT void JNICALL Java_A_f(JNIEnv *env, jclass cls, jobject object, jint n)\n    {\n        if (n != 0) {\n            (*env)->DeleteLocalRef(env, object);\n        }\n        return;\n    }\n\nfault 40 line 3\n",
    },
    Explanation {
        number: 41,
        title: b"a reference is set in another frame",
        text: b"fault 41: a reference is set in another frame\n\nA reference that a call gives belongs to the frame that is pushed then, and its variable to that of its declaration (JNI\nSpecification, chapter 4, \"PushLocalFrame\"). Declare a variable in the frame, or give the reference to PopLocalFrame.\n\n    JNIEXPORT void JNICALL Java_A_f(JNIEnv *env, jclass cls)\n    {\n        jobject object = NULL;\n        if ((*env)->PushLocalFrame(env, 1) == 0) {\n            object = (*env)->NewLocalRef(env, cls);\n            (*env)->PopLocalFrame(env, NULL);\n        }\n        return;\n    }\n\nfault 41 line 5\n",
    },
    Explanation {
        number: 42,
        title: b"a path ends without return, or a statement is never reached",
        text: b"fault 42: a path ends without `return`, or a statement is never reached\n\nC99 (6.9.1) lets a caller use the result of a function that ended without one, and leaves it undefined. Put a return\nat the end; take out what comes after an if of which both branches return.\n\n    JNIEXPORT jint JNICALL Java_A_f(JNIEnv *env, jclass cls, jint n)\n    {\n        if (n > 0) {\n            return n;\n        }\n    }\n\nfault 42 line 6\n",
    },
];

/// These, as a slice.
#[tactic(auto, unfolding(crate::specs::Titles::faults_40))]
fn faults_40() -> &'static [Explanation]
    ensures { map titled result.now ≡ faults_40 }
{
    &FAULTS_40
}

/// The faults from 50 to 59, by rising numbers.
static FAULTS_50: [Explanation; 1] = [Explanation {
    number: 51,
    title: b"a function is too long",
    text: b"fault 51: a function is too long\n\nThe function has more than 65,535 steps, each counted once, however often it is taken. The fault has line 0. Split the\nfunction.\n\n    JNIEXPORT void JNICALL Java_A_f(JNIEnv *env, jclass cls)\n    {\n        put_jint(1);\n        return;\n    }\n\nLine 3 for each number from 1 to 32768: fault 51 line 0\n",
}];

/// These, as a slice.
#[tactic(auto, unfolding(crate::specs::Titles::faults_50))]
fn faults_50() -> &'static [Explanation]
    ensures { map titled result.now ≡ faults_50 }
{
    &FAULTS_50
}

/// The faults from 60 to 69, by rising numbers.
static FAULTS_60: [Explanation; 4] = [
    Explanation {
        number: 61,
        title: b"a class or a field has the name of another",
        text: b"fault 61: a class or a field has the name of another\n\nThe classes of a world and the built-in ones have a name each (JNI Specification, chapter 4, \"FindClass\"), and so have\nthe fields and statics that a class declares. Choose another.\n\n    JNIEXPORT jint JNICALL Java_A_f(JNIEnv *env, jclass cls)\n    {\n        return 0;\n    }\n\n    heap 512\n    class A\n    class A\n    thread Java_A_f\n\nfault 61 line 3\n\n    heap 512\n    class A\n    field A n I\n    static A n S\n    thread Java_A_f\n\nfault 61 line 4\n",
    },
    Explanation {
        number: 62,
        title: b"a superclass isn't there, or has no subclasses",
        text: b"fault 62: a superclass isn't there, or has no subclasses\n\nThe superclass of a class is defined on a line before it, or built in; the classes of strings, of class objects and of\narrays are final. Define it first, or mend its name.\n\n    JNIEXPORT jint JNICALL Java_A_f(JNIEnv *env, jclass cls)\n    {\n        return 0;\n    }\n\n    heap 512\n    class A extends B\n    class B\n    thread Java_A_f\n\nfault 62 line 2\n",
    },
    Explanation {
        number: 63,
        title: b"no type of a field has this signature",
        text: b"fault 63: no type of a field has this signature\n\nThe signature of a field or static is I, S, B or C, or that of references to a class that is built in or defined\non a line before: LNAME;, and the name itself for a class of arrays (JNI Specification, chapter 3, \"Type Signatures\").\nMend the signature, or define its class first.\n\n    JNIEXPORT jint JNICALL Java_A_f(JNIEnv *env, jclass cls)\n    {\n        return 0;\n    }\n\n    heap 512\n    class A\n    field A n J\n    thread Java_A_f\n\nfault 63 line 3\n",
    },
    Explanation {
        number: 64,
        title: b"too many classes or fields",
        text: b"fault 64: too many classes or fields\n\nThere are at most 256 classes, the built-in ones and the array class of each among them, and a class declares at most 64\nfields and statics. The line is that of the first that is too many. Leave some out.\n\n    JNIEXPORT jint JNICALL Java_A_f(JNIEnv *env, jclass cls)\n    {\n        return 0;\n    }\n\n    heap 4096\n    class A\n    class C1\n    thread Java_A_f\n\nLine 3 for each number from 1 to 107: fault 64 line 109\n",
    },
];

/// These, as a slice.
#[tactic(auto, unfolding(crate::specs::Titles::faults_60))]
fn faults_60() -> &'static [Explanation]
    ensures { map titled result.now ≡ faults_60 }
{
    &FAULTS_60
}

/// The faults from 80 to 89, by rising numbers.
static FAULTS_80: [Explanation; 4] = [
    Explanation {
        number: 81,
        title: b"malformed line or word",
        text: b"fault 81: malformed line or word\n\ndocs/WORLDS.md has the forms of lines and words and their order. An object line has a value for each field. A clearing\nof a journal, ~46,48, has rising names.\n\n    JNIEXPORT jint JNICALL Java_A_f(JNIEnv *env, jclass cls)\n    {\n        return 0;\n    }\n\n    heap 512\n    class A\n    threads Java_A_f\n\nfault 81 line 3\n\n    heap 512\n    class A\n    field A n I\n    object @x A\n    thread Java_A_f\n\nfault 81 line 4\n\n    heap 512\n    class A\n    thread Java_A_f\n\n    1 ~48,46\n\nfault 81 line 1\n",
    },
    Explanation {
        number: 82,
        title: b"unknown name or thread, or wrong arguments",
        text: b"fault 82: unknown name or thread, or wrong arguments\n\nA call names a function of the program, whose class the world has, and gives what its parameters take; a field is one of\nthe world's classes, and an object's name is its own; a value refers to an object of a line before it, of a class that\nits place takes; a schedule's or journal's word names a thread; a program that calls GetStaticMethodID runs in a world\nof heap N methods. Mend the name, the value, the call, the word or the heap's line.\n\n    heap 512\n    class A\n    thread Java_A_g\n\nfault 82 line 3\n\n    heap 512\n    class A\n    field A next LA;\n    string @s text\n    object @x A @s\n    thread Java_A_f\n\nfault 82 line 5\n\n    heap 512\n    class A\n    thread Java_A_f\n\n    1 2\n\nfault 82 line 1\n\n    JNIEXPORT void JNICALL Java_A_f(JNIEnv *env, jclass cls)\n    {\n        jmethodID method = (*env)->GetStaticMethodID(env, cls, \"f\", \"()V\");\n        return;\n    }\n\n    heap 512\n    class A\n    thread Java_A_f\n\nfault 82 line 1\n",
    },
    Explanation {
        number: 83,
        title: b"out of range",
        text: b"fault 83: out of range\n\nA heap has 512 to 1,048,576 cells, a jint, an element or a field the range of its type, a world at most 65,536 objects\nand 1 to 8 threads, each of which makes at most 256 calls, a schedule at most 1,000,000 turns, collections and slices in\nall (one *N of more is 81), a journal at most 1,000,000 steps and as many clearings. Take a smaller or a larger number,\nor fewer of them.\n\n    JNIEXPORT jint JNICALL Java_A_f(JNIEnv *env, jclass cls)\n    {\n        return 0;\n    }\n\n    heap 511\n    class A\n    thread Java_A_f\n\nfault 83 line 1\n",
    },
    Explanation {
        number: 84,
        title: b"the heap is too small",
        text: b"fault 84: the heap is too small\n\nThe line is that of the first class, static or object that has no room: three cells an object and one for each value; a\nclass takes two objects, and a static is a value of its class's. Raise the heap line's number.\n\n    JNIEXPORT jint JNICALL Java_A_f(JNIEnv *env, jclass cls)\n    {\n        return 0;\n    }\n\n    heap 512\n    class A\n    array @a I 0 0 0 0 0 0 0 0 0 0 0 0 0 0 0 0 0 0 0 0 0 0 0 0 0 0 0 0 0 0 0 0 0 0 0 0 0 0 0 0 0 0 0 0 0 0 0 0 0 0 0 0 0 0 0 0 0 0 0 0 0 0 0 0 0 0 0 0 0 0 0 0 0 0 0 0 0 0 0 0 0 0 0 0 0 0 0 0 0 0 0 0 0 0 0 0 0 0 0 0 0 0 0 0 0 0 0 0 0 0 0 0 0 0 0 0 0 0 0 0 0 0 0 0 0 0 0 0 0 0 0 0 0 0 0 0 0 0 0 0 0 0 0 0 0 0 0 0 0 0 0 0 0 0 0 0 0 0 0 0 0 0 0 0 0 0 0 0 0 0 0 0 0 0 0 0 0 0 0 0 0 0 0 0 0 0 0 0 0 0 0 0 0 0 0 0 0 0 0 0 0 0 0 0 0 0 0 0 0 0 0 0 0 0 0 0 0 0 0 0 0 0 0 0 0 0 0 0 0 0 0 0 0 0 0 0 0 0 0 0 0 0 0 0 0 0 0 0 0 0 0 0 0 0 0 0 0 0 0 0 0 0 0 0 0 0 0 0 0 0 0 0 0 0 0 0 0 0 0 0 0 0 0 0 0 0 0 0 0 0 0 0 0 0 0 0 0 0 0 0 0 0 0 0 0 0 0 0 0 0 0 0 0 0 0 0 0 0 0 0 0 0 0 0 0 0 0 0 0 0 0 0 0 0 0 0 0 0 0 0 0 0 0 0 0 0 0 0 0 0 0 0 0 0 0 0 0 0 0 0 0 0 0 0 0 0 0 0 0 0 0 0 0 0\n    thread Java_A_f\n\nfault 84 line 3\n",
    },
];

/// These, as a slice.
#[tactic(auto, unfolding(crate::specs::Titles::faults_80))]
fn faults_80() -> &'static [Explanation]
    ensures { map titled result.now ≡ faults_80 }
{
    &FAULTS_80
}

/// The faults from 90 to 99, by rising numbers.
static FAULTS_90: [Explanation; 2] = [
    Explanation {
        number: 91,
        title: b"an entry of a journal isn't possible",
        text: b"fault 91: an entry of a journal isn't possible\n\nThe entry, counted from 1, is the first that can't be. Of a step: the thread has ended or waits for a monitor, a trap has\nstopped the machine, or the step allocates nothing that could be refused. Of a clearing: one of the objects is held by no\nweak reference, or can be reached otherwise; those that other weak references hold count as reached. Replay a journal\nwith the program and the world that it came from. Here the thread ends with its fifth step, and until its fourth it has a\nlocal reference to the object.\n\n    static jweak cache = NULL;\n    \n    JNIEXPORT void JNICALL Java_A_f(JNIEnv *env, jclass cls)\n    {\n        jobject object = (*env)->AllocObject(env, cls);\n        cache = (*env)->NewWeakGlobalRef(env, object);\n        (*env)->DeleteLocalRef(env, object);\n        return;\n    }\n\n    heap 512\n    class A\n    thread Java_A_f\n\n    1 1 1 1 1 1\n\nfault 91 entry 6\n\n    heap 512\n    class A\n    thread Java_A_f\n\n    1 1 1 ~46\n\nfault 91 entry 4\n",
    },
    Explanation {
        number: 92,
        title: b"the journal of a run by workers is full",
        text: b"fault 92: the journal of a run by workers is full\n\nA journal has at most 1,000,000 steps; clearings don't count. A run by workers (--workers) goes on until each thread\nhas ended or waits, or a trap stops it; where it could take a step more than the journal has room for, nothing is\nwritten. The fault has no line. Let the threads end, or run the program by a schedule, which says how far it goes. By a\nschedule this text runs as far as you like.\n\n    JNIEXPORT void JNICALL Java_A_f(JNIEnv *env, jclass cls)\n    {\n        while (1u == 1u) {\n            put_jint(1);\n        }\n        return;\n    }\n\n    heap 512\n    class A\n    thread Java_A_f\n\nBy workers: fault 92 line 0\n",
    },
];

/// These, as a slice.
#[tactic(auto, unfolding(crate::specs::Titles::faults_90))]
fn faults_90() -> &'static [Explanation]
    ensures { map titled result.now ≡ faults_90 }
{
    &FAULTS_90
}

/// The faults of a number's ten.
#[tactic(auto, unfolding(crate::specs::Titles::faults_near))]
pub fn faults_near(number: u32) -> &'static [Explanation]
    ensures { map titled result.now ≡ faults_near (number / 10) }
{
    match number / 10 {
        0 => faults_0(),
        1 => faults_10(),
        2 => faults_20(),
        3 => faults_30(),
        4 => faults_40(),
        5 => faults_50(),
        6 => faults_60(),
        8 => faults_80(),
        9 => faults_90(),
        _ => &[],
    }
}

/// The traps from 0 to 9, by rising numbers.
static TRAPS_0: [Explanation; 9] = [
    Explanation {
        number: 1,
        title: b"a division or a remainder by zero",
        text: b"trap 1: a division or a remainder by zero\n\nC99 (6.5.5) leaves it undefined. Test the divisor first.\n\n    JNIEXPORT void JNICALL Java_A_f(JNIEnv *env, jclass cls, jint n)\n    {\n        put_jint((jint)(1u / (uint32_t)n));\n        return;\n    }\n\n    heap 512\n    class A\n    thread Java_A_f 0\n\nT1 trap 1 line 3\n",
    },
    Explanation {
        number: 2,
        title: b"a shift by 32 or more",
        text: b"trap 2: a shift by 32 or more\n\nC99 (6.5.7) leaves it undefined. Test the right operand first, or take it & 31u.\n\n    JNIEXPORT void JNICALL Java_A_f(JNIEnv *env, jclass cls, jint n)\n    {\n        put_jint((jint)(1u << (uint32_t)n));\n        return;\n    }\n\n    heap 512\n    class A\n    thread Java_A_f 32\n\nT1 trap 2 line 3\n",
    },
    Explanation {
        number: 3,
        title: b"an element past the end",
        text: b"trap 3: an element past the end\n\nC99 (6.5.6) leaves it undefined. A jint below zero is past the end too, and so is the end of a region that is longer\nthan the array of C that it is copied to or from (JNI Specification, chapter 4, Get<PrimitiveType>ArrayRegion and\nSet<PrimitiveType>ArrayRegion). Test the index first, or the length.\n\n    JNIEXPORT void JNICALL Java_A_f(JNIEnv *env, jclass cls, jint n)\n    {\n        jint numbers[2] = {0};\n        numbers[n] = 1;\n        return;\n    }\n\n    heap 512\n    class A\n    thread Java_A_f 2\n\nT1 trap 3 line 4\n\n    JNIEXPORT void JNICALL Java_A_f(JNIEnv *env, jclass cls, jintArray array)\n    {\n        jint numbers[2] = {0};\n        (*env)->GetIntArrayRegion(env, array, 0, 3, numbers);\n        return;\n    }\n\n    heap 512\n    class A\n    array @a I 7 8 9\n    thread Java_A_f @a\n\nT1 trap 3 line 4\n",
    },
    Explanation {
        number: 4,
        title: b"NULL where an object is wanted",
        text: b"trap 4: NULL where an object is wanted\n\nThe JNI doesn't check its arguments (JNI Specification, chapter 2, \"Reporting Programming Errors\"). Test the reference,\nthe field ID or the method ID first. A thread that would enter the monitor of NULL doesn't wait, but traps. What a\nmethod is passed may be NULL.\n\n    JNIEXPORT void JNICALL Java_A_f(JNIEnv *env, jclass cls, jintArray array)\n    {\n        jint length = (*env)->GetArrayLength(env, array);\n        return;\n    }\n\n    heap 512\n    class A\n    thread Java_A_f null\n\nT1 trap 4 line 3\n\n    static jobject lock = NULL;\n    \n    JNIEXPORT void JNICALL Java_A_f(JNIEnv *env, jclass cls)\n    {\n        (*env)->MonitorEnter(env, lock);\n        return;\n    }\n\n    heap 512\n    class A\n    thread Java_A_f\n\nT1 trap 4 line 5\n",
    },
    Explanation {
        number: 5,
        title: b"a call while an exception is pending",
        text: b"trap 5: a call while an exception is pending\n\nOnly the functions that ask for an exception, clear it or release what is held (a buffer, a reference, a frame, a\nmonitor), and PushLocalFrame, may be called then (JNI Specification, chapter 2, \"Exceptions\"). Test for the exception\nafter the call that may throw it, and return or clear it. MonitorExit throws where the thread doesn't own the monitor.\nAn exception that is pending where a called method returns stays pending in its caller.\n\n    JNIEXPORT void JNICALL Java_A_f(JNIEnv *env, jclass cls)\n    {\n        jclass missing = (*env)->FindClass(env, \"B\");\n        jclass above = (*env)->GetSuperclass(env, cls);\n        return;\n    }\n\n    heap 512\n    class A\n    thread Java_A_f\n\nT1 trap 5 line 4\n\n    JNIEXPORT void JNICALL Java_A_f(JNIEnv *env, jclass cls)\n    {\n        (*env)->MonitorExit(env, cls);\n        (*env)->MonitorEnter(env, cls);\n        return;\n    }\n\n    heap 512\n    class A\n    thread Java_A_f\n\nT1 trap 5 line 4\n",
    },
    Explanation {
        number: 6,
        title: b"an object isn't of the kind that is wanted",
        text: b"trap 6: an object isn't of the kind that is wanted\n\nChapter 4 of the JNI Specification says with each function what is wanted: an array, for GetArrayLength; one of\njint, for GetIntArrayRegion; a class object, for GetSuperclass; an object that has the field, of the function's\ntype, for GetIntField; a class whose objects no other function makes, for AllocObject. Give an object of that kind.\nA call of a method is given the class that the method's ID was got from, asks for the result that the method has, and\npasses as many numbers and references as the method takes, each in its place.\n\n    JNIEXPORT void JNICALL Java_A_f(JNIEnv *env, jclass cls, jobject object)\n    {\n        jint length = (*env)->GetArrayLength(env, object);\n        return;\n    }\n\n    heap 512\n    class A\n    thread Java_A_f class:A\n\nT1 trap 6 line 3\n\n    JNIEXPORT jint JNICALL Java_A_g(JNIEnv *env, jclass cls, jint n)\n    {\n        return n;\n    }\n    \n    JNIEXPORT void JNICALL Java_A_f(JNIEnv *env, jclass cls)\n    {\n        jmethodID method = (*env)->GetStaticMethodID(env, cls, \"g\", \"(I)I\");\n        (*env)->CallStaticVoidMethod(env, cls, method, 1);\n        return;\n    }\n\n    heap 512 methods\n    class A\n    thread Java_A_f\n\nT1 trap 6 line 9\n",
    },
    Explanation {
        number: 7,
        title: b"a deleted global reference",
        text: b"trap 7: a deleted global reference\n\nWhat DeleteGlobalRef or DeleteWeakGlobalRef was given refers to nothing (JNI Specification, chapter 4,\n\"DeleteGlobalRef\", \"DeleteWeakGlobalRef\"), and isn't NULL: a second deletion is a use too. Delete it after its last use,\nand set the static to NULL.\n\n    static jclass kept = NULL;\n    \n    JNIEXPORT void JNICALL Java_A_f(JNIEnv *env, jclass cls)\n    {\n        kept = (*env)->NewGlobalRef(env, cls);\n        (*env)->DeleteGlobalRef(env, kept);\n        jobject object = (*env)->AllocObject(env, kept);\n        return;\n    }\n\n    heap 512\n    class A\n    thread Java_A_f\n\nT1 trap 7 line 7\n\n    static jobject lock = NULL;\n    \n    JNIEXPORT void JNICALL Java_A_f(JNIEnv *env, jclass cls)\n    {\n        lock = (*env)->NewGlobalRef(env, cls);\n        (*env)->MonitorEnter(env, lock);\n        (*env)->DeleteGlobalRef(env, lock);\n        (*env)->MonitorExit(env, lock);\n        return;\n    }\n\n    heap 512\n    class A\n    thread Java_A_f\n\nT1 trap 7 line 8\n\n    static jweak cache = NULL;\n    \n    JNIEXPORT void JNICALL Java_A_f(JNIEnv *env, jclass cls)\n    {\n        cache = (*env)->NewWeakGlobalRef(env, cls);\n        (*env)->DeleteWeakGlobalRef(env, cache);\n        jobject found = (*env)->NewLocalRef(env, cache);\n        return;\n    }\n\n    heap 512\n    class A\n    thread Java_A_f\n\nT1 trap 7 line 7\n",
    },
    Explanation {
        number: 8,
        title: b"no room for a local reference",
        text: b"trap 8: no room for a local reference\n\nThe first frame of a call has room for 16 local references besides the class and the arguments, another for as many as\nit was made for, and each for those that it was grown by (JNI Specification, chapter 4, \"EnsureLocalCapacity\" and\n\"PushLocalFrame\"). Delete references that aren't used any more, or ask for the room first.\n\n    JNIEXPORT void JNICALL Java_A_f(JNIEnv *env, jclass cls, jobject object)\n    {\n        uint32_t i = 0u;\n        while (i < 20u) {\n            jclass class = (*env)->GetObjectClass(env, object);\n            i = i + 1u;\n        }\n        return;\n    }\n\n    heap 512\n    class A\n    object @x A\n    thread Java_A_f @x\n\nT1 trap 8 line 5\n",
    },
    Explanation {
        number: 9,
        title: b"FatalError",
        text: b"trap 9: FatalError\n\nThe program has called FatalError, which doesn't return (JNI Specification, chapter 4, \"FatalError\"). Throw an\nexception where the caller may go on.\n\n    JNIEXPORT void JNICALL Java_A_f(JNIEnv *env, jclass cls, jint n)\n    {\n        if (n < 0) {\n            (*env)->FatalError(env, \"n is negative\");\n        }\n        return;\n    }\n\n    heap 512\n    class A\n    thread Java_A_f -1\n\nT1 trap 9 line 4\n",
    },
];

/// These, as a slice.
#[tactic(auto, unfolding(crate::specs::Titles::traps_0))]
fn traps_0() -> &'static [Explanation]
    ensures { map titled result.now ≡ traps_0 }
{
    &TRAPS_0
}

/// The traps from 10 to 19, by rising numbers.
static TRAPS_10: [Explanation; 1] = [Explanation {
    number: 10,
    title: b"too many calls within one another",
    text: b"trap 10: too many calls within one another\n\nA thread has at most 64 calls in progress: the one that the world asks for, and those that are made from one another. A\nvirtual machine has room for many more, and where that ends throws an exception that a native method can't count on. The\nline is that of the call that would be the 65th. End the recursion earlier, or write a loop.\n\n    JNIEXPORT void JNICALL Java_A_f(JNIEnv *env, jclass cls)\n    {\n        jmethodID method = (*env)->GetStaticMethodID(env, cls, \"f\", \"()V\");\n        (*env)->CallStaticVoidMethod(env, cls, method);\n        return;\n    }\n\n    heap 512 methods\n    class A\n    thread Java_A_f\n\nT1 trap 10 line 4\n",
}];

/// These, as a slice.
#[tactic(auto, unfolding(crate::specs::Titles::traps_10))]
fn traps_10() -> &'static [Explanation]
    ensures { map titled result.now ≡ traps_10 }
{
    &TRAPS_10
}

/// The traps of a number's ten.
#[tactic(auto, unfolding(crate::specs::Titles::traps_near))]
pub fn traps_near(number: u32) -> &'static [Explanation]
    ensures { map titled result.now ≡ traps_near (number / 10) }
{
    match number / 10 {
        0 => traps_0(),
        1 => traps_10(),
        _ => &[],
    }
}
